// The signed value of a word and of a double word, the bits of a value, and two words joined and
// parted again: one operation of the language each, under the names that docs/PROMISES.md has.
ghost use Rattle.std.specs.Prelude.{◌≡◌, ◌/◌, ◌%◌};
ghost use Rattle.std.specs.Int.{w16, w32};
ghost use Rattle.word.specs.Words.{joined};
ghost use Rattle.word.specs.Signed.{signed, bits_of};

pub fn word_value(w: u16) -> i16
    ensures { result ≡ signed w16 w }
{
    w.cast_signed()
}

pub fn double_value(d: u32) -> i32
    ensures { result ≡ signed w32 d }
{
    d.cast_signed()
}

pub fn double_bits(z: i32) -> u32
    ensures { result ≡ bits_of w32 z }
{
    z.cast_unsigned()
}

pub fn join(b: u16, a: u16) -> u32
    ensures { result ≡ joined b a }
{
    u32::from(b) << 16 | u32::from(a)
}

// The high and the low word of a double word.
pub(crate) fn split(d: u32) -> (u16, u16)
    ensures high { result.0 ≡ d / 0o200000 }
    ensures low { result.1 ≡ d % 0o200000 }
{
    ((d >> 16) as u16, (d % 0o200000) as u16)
}
