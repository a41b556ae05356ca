// The long shifts of B,A.
ghost use Rattle.std.specs.Prelude.{◌≡◌};
ghost use Rattle.word.specs.Long.{moved, loses, overflowed, long_shifted};

use crate::count::Places;
use crate::values::{double_bits, double_value, join, split};

#[derive(Clone, Copy, Debug, PartialEq, Eq)]
pub enum LongShift {
    Asl,
    Lsl,
    Rrl,
    Asr,
    Lsr,
    Rrr,
}

#[derive(Clone, Copy, Debug, PartialEq, Eq)]
pub struct Long {
    pub b: u16,
    pub a: u16,
    pub o: bool,
}

// The double word after so many places.
#[tactic(auto, unfolding(crate::specs::Long::moved))]
fn shifted(kind: LongShift, places: Places, d: u32) -> u32
    ensures { result ≡ moved kind places.count d }
{
    let n = places.count;
    match kind {
        LongShift::Asl => d & 0x8000_0000 | d << n & 0x7fff_ffff,
        LongShift::Lsl => d << n,
        LongShift::Rrl => d.rotate_left(n),
        LongShift::Asr => double_bits(double_value(d) >> n),
        LongShift::Lsr => d >> n,
        LongShift::Rrr => d.rotate_right(n),
    }
}

// Whether ASL by n places loses a bit other than the sign.
#[tactic(auto, unfolding(crate::specs::Long::loses))]
fn loses(places: Places, d: u32) -> bool
    ensures { result ≡ loses places.count d }
{
    let n = places.count;
    let lost = (d & 0x7fff_ffff) >> (31 - n);
    lost != (d >> 31) * ((1 << n) - 1)
}

// O after so many places.
fn overflow(kind: LongShift, places: Places, d: u32, o: bool) -> bool
    ensures { result ≡ overflowed kind places.count d o }
{
    match kind {
        LongShift::Asl => loses(places, d),
        LongShift::Asr => false,
        LongShift::Lsl | LongShift::Rrl | LongShift::Lsr | LongShift::Rrr => o,
    }
}

pub fn long_shift(kind: LongShift, n: u16, b: u16, a: u16, o: bool) -> Long
    ensures { result ≡ long_shifted kind n b a o }
{
    let places = Places::of(n);
    let d = join(b, a);
    let (b, a) = split(shifted(kind, places, d));
    Long {
        b,
        a,
        o: overflow(kind, places, d, o),
    }
}
