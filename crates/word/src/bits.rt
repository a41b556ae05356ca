// The logical operations, bytes, and the bits that a mask names. Those that are one operation of the language stand under the
// names that docs/PROMISES.md has with their theorems.
ghost use Rattle.std.specs.Prelude.{◌≡◌, bit_and, bit_or, bit_xor};
ghost use Rattle.word.specs.Words.{weight, complemented, byte_of, with_byte, bits_cleared, every_bit_set};

pub fn weight_of(e: bool) -> u16
    ensures { result ≡ weight e }
{
    u16::from(e)
}

pub fn both(a: u16, b: u16) -> u16
    ensures { result ≡ bit_and a b }
{
    a & b
}

pub fn either(a: u16, b: u16) -> u16
    ensures { result ≡ bit_or a b }
{
    a | b
}

pub fn differing(a: u16, b: u16) -> u16
    ensures { result ≡ bit_xor a b }
{
    a ^ b
}

pub fn complement(word: u16) -> u16
    ensures { result ≡ complemented word }
{
    !word
}

pub fn byte_of(odd: bool, word: u16) -> u8
    ensures { result ≡ byte_of odd word }
{
    let [high, low] = word.to_be_bytes();
    if odd { low } else { high }
}

// By shifts, since `from_be_bytes` takes twice the time.
pub fn with_byte(odd: bool, word: u16, byte: u8) -> u16
    ensures { result ≡ with_byte odd word byte }
{
    if odd {
        word >> 8 << 8 | u16::from(byte)
    } else {
        u16::from(byte) << 8 | word & 0o377
    }
}

pub fn clear_bits(mask: u16, word: u16) -> u16
    ensures { result ≡ bits_cleared mask word }
{
    word & !mask
}

pub fn every_bit_set(mask: u16, word: u16) -> bool
    ensures { result ≡ every_bit_set mask word }
{
    word & mask == mask
}
