// Words and bytes, single and compared in strings, and the masks.
ghost use Rattle.std.specs.Prelude.{◌≡◌};
ghost use Rattle.acts.specs.Acts.{load, Performs, Gives};
ghost use Rattle.strings.specs.Strings.{word_at, along, value_of, order_of, load_element, comparing};
ghost use Rattle.strings.specs.Strings.{Compares, concluded, byte_loaded, byte_stored, none_to_do, count};
ghost use Rattle.strings.specs.Strings.{compare_act, masked, mask_act};

use acts::reads::get_address;
use acts::record::Registers;
use acts::replies::{Refusal, Stop};
use acts::stores::put;
use code::codes::{Bits, Register};
use maps::bytes::{byte_word, is_low_byte};
use maps::pages::{Map, Maps, Place, Purpose};
use maps::troubles::Trouble;
use std::cmp::Ordering;
use word::bits::{byte_of, clear_bits, every_bit_set, with_byte};
use word::orders::{compare_bytes, compare_words};
use word::sums::past;

// The word at an address of the Execute map.
#[tactic(auto, unfolding(acts::specs::Acts::exec))]
fn load_word(at: u16, r: Registers, pages: &[u16], memory: &[u16]) -> Result<u16, Trouble>
    ensures { Gives pages.now (load Map.Execute at) r memory.now result }
{
    r.read(Map::Execute, at, pages, memory)
}

// What a string is made of.
#[derive(Clone, Copy, Debug, PartialEq, Eq)]
pub enum Element {
    Word,
    Byte,
}

impl Element {
    // The address of the word that holds an element.
    pub(crate) fn word_at(self, at: u16) -> u16
        ensures { result ≡ word_at self at }
    {
        match self {
            Element::Word => at % 0o100000,
            Element::Byte => byte_word(at),
        }
    }

    // The address n elements past another.
    pub(crate) fn along(self, at: u16, n: u16) -> u16
        ensures { result ≡ along self at n }
    {
        match self {
            Element::Word => past(at, n),
            Element::Byte => at.wrapping_add(n),
        }
    }

    // The word that holds an element, which may not be A or B.
    #[tactic(auto, unfolding(acts::specs::Acts::exec))]
    pub(crate) fn load(
        self,
        at: u16,
        r: Registers,
        pages: &[u16],
        memory: &[u16],
    ) -> Result<u16, Trouble>
        ensures { Gives pages.now (load_element self at) r memory.now result }
    {
        let holder = self.word_at(at);
        if Map::Execute.is_register(holder) {
            return Err(Trouble::InRegisters);
        }
        load_word(holder, r, pages, memory)
    }

    // The order of the elements at s and d, whose words are v and w.
    fn order(self, s: u16, v: u16, d: u16, w: u16) -> Ordering
        ensures { result ≡ order_of self (value_of self s v) (value_of self d w) }
    {
        match self {
            Element::Word => compare_words(v, w),
            Element::Byte => compare_bytes(byte_of(is_low_byte(s), v), byte_of(is_low_byte(d), w)),
        }
    }

    // How one pair compares, or what ends the step.
    fn compare(
        self,
        s: u16,
        d: u16,
        r: Registers,
        pages: &[u16],
        memory: &[u16],
    ) -> Result<Ordering, Trouble>
        ensures { Compares pages.now self s d r memory.now result }
    {
        let v = self.load(s, r, pages, memory)?;
        let w = self.load(d, r, pages, memory)?;
        Ok(self.order(s, v, d, w))
    }
}

// Whether a count is 0 or has bit 15 set.
pub(crate) fn is_none(count: u16) -> bool
    ensures { result ≡ none_to_do count }
{
    count == 0 || count / 0o100000 % 2 == 1
}

// The count of a string instruction.
pub(crate) fn count_at(r: Registers, pages: &[u16], memory: &[u16]) -> Result<u16, Trouble>
    ensures { Gives pages.now (count r) r memory.now result }
{
    let at = get_address(1, r, pages, memory)?;
    load_word(at, r, pages, memory)
}

// LBT
#[tactic(auto, unfolding(acts::specs::Acts::exec))]
pub fn load_byte(r: Registers, pages: &[u16], memory: &[u16]) -> Result<Registers, Stop>
    ensures { Performs pages.now (byte_loaded r) r memory.now result memory.now }
{
    let w = Element::Byte.load(r.b, r, pages, memory)?;
    let byte = byte_of(is_low_byte(r.b), w);
    let next = Element::Byte.along(r.b, 1);
    Ok(
        r.with_register(Register::A, u16::from(byte))
            .with_register(Register::B, next)
            .ahead(1),
    )
}

// SBT: the other half of the word stays. The byte is the cast of what fits it.
#[tactic(auto, using(maps::proofs::Laws::place_below, crate::proofs::Bytes::byte_stored_lem))]
pub fn store_byte(r: Registers, pages: &[u16], memory: &mut [u16]) -> Result<Registers, Stop>
    ensures { Performs pages.now (byte_stored r) r memory.old result memory.new }
{
    let holder = byte_word(r.b);
    let maps = Maps {
        pages,
        wmap: r.wmap,
    };
    let place = maps.place(Map::Execute, Purpose::Both, holder, memory.len())?;
    let Place::Memory(index) = place else {
        return Err(Stop::Refused(Refusal::InRegisters));
    };
    memory[index] = with_byte(is_low_byte(r.b), memory[index], (r.a % 256) as u8);
    let next = Element::Byte.along(r.b, 1);
    Ok(r.with_register(Register::B, next).ahead(1))
}

// What follows a comparison: A stays at the place where it ended, B ends past its range.
fn conclude(order: Ordering, at: u16, end: u16, r: Registers) -> Registers
    ensures { result ≡ concluded order at end r }
{
    let n = match order {
        Ordering::Equal => 3,
        Ordering::Less => 4,
        Ordering::Greater => 5,
    };
    r.with_register(Register::A, at)
        .with_register(Register::B, end)
        .ahead(n)
}

// One pair after another, to the first difference. The loop yields the order and its place, which a `for` cannot.
// A call, as copy_stretch is.
#[inline(never)]
#[tactic(auto, using(crate::proofs::Comparisons::went_on, crate::proofs::Comparisons::found, crate::proofs::Comparisons::ended), unfolding(crate::specs::Strings::comparing))]
pub(crate) fn compare_strings(
    u: Element,
    count: u16,
    r: Registers,
    pages: &[u16],
    memory: &[u16],
) -> Result<Registers, Stop>
    ensures { Performs pages.now (comparing u (along u r.b count) (along u r.a 0) (along u r.b 0) count) r memory.now result memory.now }
{
    let mut first = u.along(r.a, 0);
    let mut second = u.along(r.b, 0);
    let mut left = count;
    let (order, at) = loop {
        if left == 0 {
            break (Ordering::Equal, first);
        }
        let order = u.compare(first, second, r, pages, memory)?;
        if order != Ordering::Equal {
            break (order, first);
        }
        first = u.along(first, 1);
        second = u.along(second, 1);
        left -= 1;
    };
    Ok(conclude(order, at, u.along(r.b, count), r))
}

// CMW and CBT
#[tactic(auto, using(crate::proofs::Comparisons::ended))]
pub fn compare(u: Element, r: Registers, pages: &[u16], memory: &[u16]) -> Result<Registers, Stop>
    ensures { Performs pages.now (compare_act u r) r memory.now result memory.now }
{
    let count = count_at(r, pages, memory)?;
    if is_none(count) {
        return Ok(r.ahead(3));
    }
    compare_strings(u, count, r, pages, memory)
}

// SBS, CBS and TBS: the address of the mask, that of the target, the mask, the target.
pub fn mask_bits(
    x: Bits,
    r: Registers,
    pages: &[u16],
    memory: &mut [u16],
) -> Result<Registers, Stop>
    ensures { Performs pages.now (mask_act x r) r memory.old result memory.new }
{
    let m = get_address(1, r, pages, memory)?;
    let at = get_address(2, r, pages, memory)?;
    let mask = load_word(m, r, pages, memory)?;
    let w = load_word(at, r, pages, memory)?;
    put_masked(x, mask, w, at, r, pages, memory)
}

// Drawn in, as `put` is.
#[inline(always)]
#[tactic(auto, unfolding(acts::specs::Acts::exec))]
fn put_masked(
    x: Bits,
    mask: u16,
    w: u16,
    at: u16,
    r: Registers,
    pages: &[u16],
    memory: &mut [u16],
) -> Result<Registers, Stop>
    ensures { Performs pages.now (masked x r mask w at) r memory.old result memory.new }
{
    let to = past(r.p, 3);
    match x {
        Bits::Sbs => put(w | mask, Map::Execute, at, to, r, pages, memory),
        Bits::Cbs => put(clear_bits(mask, w), Map::Execute, at, to, r, pages, memory),
        Bits::Tbs => Ok(r.skipping(3, !every_bit_set(mask, w))),
    }
}
