// The ways in which an instruction works on the word at its address.
ghost use Rattle.std.specs.Prelude.{◌≡◌, false, ℕ, ◌<◌, length};
ghost use Rattle.maps.specs.declared.pages.Place.{Place as Where};
ghost use Rattle.effects.specs.Doubles.{registers_at, memory_at};
ghost use Rattle.acts.specs.Record.{with_a, with_b, with_o, ahead};
ghost use Rattle.acts.specs.Acts.{Performs, load, fin};
ghost use Rattle.effects.specs.Ways.{flagged, quotient, taken, stored, addressed, way_act};

use acts::record::{Registers, skipping};
use acts::replies::Stop;
use acts::stores::put;
use code::codes::{Index, Register};
use maps::pages::{Map, Maps, Place, Purpose};
use word::products::{Product, Quotient, divide, multiply};
use word::sums::{Sum, add, increment, past};

// What is done with a word that is read.
#[derive(Clone, Copy, Debug, PartialEq, Eq)]
pub enum Taking {
    And,
    Xor,
    Ior,
    Add(Register),
    Compare(Register),
    Load(Register),
    Multiply,
    Divide,
    LoadIndex(Index),
    AddIndex(Index),
}

// What is stored.
#[derive(Clone, Copy, Debug, PartialEq, Eq)]
pub enum Source {
    Register(Register),
    Index(Index),
}

// Where the word lies: at the address, or X or Y past it.
#[derive(Clone, Copy, Debug, PartialEq, Eq)]
pub enum Addressing {
    Plain,
    Indexed(Index),
}

#[derive(Clone, Copy, Debug, PartialEq, Eq)]
pub enum Way {
    Take(Taking, Map, Addressing),
    Put(Source, Map, Addressing),
    LoadDouble,
    StoreDouble,
    StepAndSkip,
    Jump,
    JumpSaving,
}

// Registers are set one by one here, for the time it takes: see acts::record.

// E and O by a sum: neither is cleared.
pub fn set_flags(t: Sum, r: Registers) -> Registers
    ensures { result ≡ flagged t r }
{
    let mut s = r;
    s.e = r.e | t.carry;
    s.o = r.o | t.overflow;
    s
}

pub fn take_quotient(q: Option<Quotient>, r: Registers) -> Registers
    ensures { result ≡ quotient q r }
{
    let mut s = r;
    match q {
        Some(q) => {
            s.a = q.quotient;
            s.b = q.remainder;
            s.o = false;
        }
        None => s.o = true,
    }
    s
}

pub fn take_product(t: Product, r: Registers) -> Registers
    ensures { result ≡ with_o (with_b (with_a r t.a) t.b) false }
{
    let mut s = r;
    s.a = t.a;
    s.b = t.b;
    s.o = false;
    s
}

impl Taking {
    // The registers after a word was read, by an instruction of so many words.
    pub fn apply(self, w: u16, words: u16, r: Registers) -> Registers
        ensures { result ≡ taken self w words r }
    {
        match self {
            Taking::And => r.with_register(Register::A, r.a & w).ahead(words),
            Taking::Xor => r.with_register(Register::A, r.a ^ w).ahead(words),
            Taking::Ior => r.with_register(Register::A, r.a | w).ahead(words),
            Taking::Add(g) => {
                let t = add(r.register(g), w);
                set_flags(t, r).with_register(g, t.word).ahead(words)
            }
            Taking::Compare(g) => r.skipping(words, r.register(g) != w),
            Taking::Load(g) => r.with_register(g, w).ahead(words),
            Taking::Multiply => take_product(multiply(r.a, w), r).ahead(words),
            Taking::Divide => take_quotient(divide(r.b, r.a, w), r).ahead(words),
            Taking::LoadIndex(i) => r.with_index(i, w).ahead(words),
            Taking::AddIndex(i) => {
                let t = add(r.index(i), w);
                set_flags(t, r).with_index(i, t.word).ahead(words)
            }
        }
    }
}

impl Source {
    pub fn value(self, r: Registers) -> u16
        ensures { result ≡ stored self r }
    {
        match self {
            Source::Register(g) => r.register(g),
            Source::Index(i) => r.index(i),
        }
    }
}

impl Addressing {
    pub fn address(self, at: u16, r: Registers) -> u16
        ensures { result ≡ addressed self at r }
    {
        match self {
            Addressing::Plain => at,
            Addressing::Indexed(i) => past(at, r.index(i)),
        }
    }
}

// The word at an address is read, and the registers follow.
pub(crate) fn take(
    taking: Taking,
    map: Map,
    at: u16,
    words: u16,
    r: Registers,
    pages: &[u16],
    memory: &[u16],
) -> Result<Registers, Stop>
    ensures { Performs pages.now (load map at (λ w. fin (taken taking w words))) r memory.now result memory.now }
{
    let w = r.read(map, at, pages, memory)?;
    Ok(taking.apply(w, words, r))
}

// ISZ: read, then stored plus one; a skip where that is 0.
pub(crate) fn step_and_skip(
    at: u16,
    words: u16,
    r: Registers,
    pages: &[u16],
    memory: &mut [u16],
) -> Result<Registers, Stop>
    ensures { Performs pages.now (way_act Way.StepAndSkip r at words) r memory.old result memory.new }
{
    let stepped = increment(r.read(Map::Execute, at, pages, memory)?).word;
    let to = skipping(r.p, words, stepped == 0);
    put(stepped, Map::Execute, at, to, r, pages, memory)
}

// DLD: both words are read before A or B changes.
pub(crate) fn load_double(
    at: u16,
    words: u16,
    r: Registers,
    pages: &[u16],
    memory: &[u16],
) -> Result<Registers, Stop>
    ensures { Performs pages.now (way_act Way.LoadDouble r at words) r memory.now result memory.now }
{
    let a = r.read(Map::Execute, at, pages, memory)?;
    let b = r.read(Map::Execute, past(at, 1), pages, memory)?;
    Ok(Registers { a, b, ..r }.ahead(words))
}

// A word is stored at a place that was tested. Maps::store tests it, and goes for one word alone.
fn store_at(place: Place, value: u16, s: Registers, memory: &mut [u16]) -> Registers
    requires { (i : ℕ) → place ≡ Where.Memory i → i < length memory.old }
    ensures { (result ≡ registers_at place value s) × (memory.new ≡ memory_at place value memory.old) }
{
    match place {
        Place::A => s.with_register(Register::A, value),
        Place::B => s.with_register(Register::B, value),
        Place::Memory(i) => {
            memory[i] = value;
            s
        }
    }
}

// DST: the values at the start, both places tested before either store.
pub(crate) fn store_double(
    at: u16,
    words: u16,
    r: Registers,
    pages: &[u16],
    memory: &mut [u16],
) -> Result<Registers, Stop>
    ensures { Performs pages.now (way_act Way.StoreDouble r at words) r memory.old result memory.new }
{
    let length = memory.len();
    let next = past(at, 1);
    let maps = Maps {
        pages,
        wmap: r.wmap,
    };
    let first = maps.place(Map::Execute, Purpose::Store, at, length)?;
    let second = maps.place(Map::Execute, Purpose::Store, next, length)?;
    let s = store_at(first, r.a, r.ahead(words), memory);
    Ok(store_at(second, r.b, s, memory))
}

// What is done at an address, by an instruction of so many words.
pub fn at_address(
    way: Way,
    at: u16,
    words: u16,
    r: Registers,
    pages: &[u16],
    memory: &mut [u16],
) -> Result<Registers, Stop>
    ensures { Performs pages.now (way_act way r at words) r memory.old result memory.new }
{
    match way {
        Way::Take(taking, map, addressing) => {
            take(
                taking,
                map,
                addressing.address(at, r),
                words,
                r,
                pages,
                memory,
            )
        }
        Way::Put(source, map, addressing) => {
            let place = addressing.address(at, r);
            put(
                source.value(r),
                map,
                place,
                past(r.p, words),
                r,
                pages,
                memory,
            )
        }
        Way::LoadDouble => load_double(at, words, r, pages, memory),
        Way::StoreDouble => store_double(at, words, r, pages, memory),
        Way::StepAndSkip => step_and_skip(at, words, r, pages, memory),
        Way::Jump => Ok(r.at(at)),
        Way::JumpSaving => {
            put(
                past(r.p, words),
                Map::Execute,
                at,
                past(at, 1),
                r,
                pages,
                memory,
            )
        }
    }
}
