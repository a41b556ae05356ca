// The register record, by value, and as 14 words.
ghost use Rattle.std.specs.Prelude.{◌≡◌, ◌+◌};
ghost use Rattle.word.specs.Words.{weight};
ghost use Rattle.word.specs.Sums.{address};
ghost use Rattle.maps.specs.Access.{fetched};
ghost use Rattle.maps.specs.Chains.{chain};
ghost use Rattle.acts.specs.Record.{in_register, with_register, in_index, with_index, with_p, fresh, valid, interrupted, ahead, words_of, registers_of};

use code::codes::{Index, Register};
use maps::pages::{Map, Maps, is_protecting, switch_maps};
use maps::troubles::Trouble;
use word::bits::weight_of;
use word::sums::past;

// A record is copied whole and one register then set: made anew by `..` it is copied register by register, and frequent steps
// take half as long again. The order of the fields is no part of their meaning. In this one no register that most steps change lies
// beside others that they leave, as such are copied as one number and taken apart again at each step.
#[derive(Clone, Copy, Debug, PartialEq, Eq)]
pub struct Registers {
    pub a: u16,
    pub x: u16,
    pub y: u16,
    pub b: u16,
    pub imap: u16,
    pub violation: u16,
    pub p: u16,
    pub interrupt: u16,
    pub wmap: u16,
    pub trap: u16,
    pub e: bool,
    pub o: bool,
    pub switches: u8,
    pub lights: u8,
}

// How many words a record has.
pub const RECORD_WORDS: usize = 14;

// The address n words past p, and one more where a skip is met.
pub fn skipping(p: u16, n: u16, skip: bool) -> u16
    ensures { result ≡ address p (n + weight skip) }
{
    past(past(p, n), weight_of(skip))
}

impl Registers {
    pub fn fresh() -> Registers
        ensures { result ≡ fresh }
    {
        Registers {
            a: 0,
            b: 0,
            x: 0,
            y: 0,
            p: 2,
            e: false,
            o: false,
            wmap: 0,
            imap: 0,
            violation: 0,
            interrupt: 0,
            trap: 0,
            switches: 0,
            lights: 0,
        }
    }

    // A and B here, X and Y below: the fields differ, and a trait over the four would have the same arms.
    pub fn register(self, g: Register) -> u16
        ensures { result ≡ in_register g self }
    {
        match g {
            Register::A => self.a,
            Register::B => self.b,
        }
    }

    pub fn with_register(self, g: Register, v: u16) -> Registers
        ensures { result ≡ with_register g self v }
    {
        let mut s = self;
        match g {
            Register::A => s.a = v,
            Register::B => s.b = v,
        }
        s
    }

    pub fn index(self, i: Index) -> u16
        ensures { result ≡ in_index i self }
    {
        match i {
            Index::X => self.x,
            Index::Y => self.y,
        }
    }

    pub fn with_index(self, i: Index, v: u16) -> Registers
        ensures { result ≡ with_index i self v }
    {
        let mut s = self;
        match i {
            Index::X => s.x = v,
            Index::Y => s.y = v,
        }
        s
    }

    // P elsewhere.
    pub fn at(self, q: u16) -> Registers
        ensures { result ≡ with_p self q }
    {
        let mut s = self;
        s.p = q;
        s
    }

    // P moved on by n words, in its 15 bits.
    pub fn ahead(self, n: u16) -> Registers
        ensures { result ≡ ahead n self }
    {
        self.at(past(self.p, n))
    }

    // P moved on by n words, and one more where a skip is met.
    pub fn skipping(self, n: u16, skip: bool) -> Registers
        ensures { result ≡ ahead (n + weight skip) self }
    {
        self.at(skipping(self.p, n, skip))
    }

    // The interrupt state of a violation.
    pub fn interrupted(self) -> Registers
        ensures { result ≡ interrupted self }
    {
        Registers {
            violation: self.p,
            interrupt: 7,
            imap: self.wmap,
            wmap: switch_maps(self.wmap),
            trap: 7,
            ..self
        }
    }

    // Whether every register is in its range, and no trap waits with protection on.
    pub fn is_valid(self) -> bool
        ensures { result ≡ valid self }
    {
        (self.p < 0o100000)
            & (self.violation < 0o100000)
            & ((self.interrupt == 0) | (self.interrupt == 7))
            & ((self.trap == 0) | (self.trap == 7) & !is_protecting(self.wmap))
    }

    // The same record, made field by field: a call that takes it then leaves the caller's own in the processor's registers.
    pub fn apart(self) -> Registers
        ensures { result ≡ self }
    {
        Registers {
            a: self.a,
            x: self.x,
            y: self.y,
            b: self.b,
            imap: self.imap,
            violation: self.violation,
            p: self.p,
            interrupt: self.interrupt,
            wmap: self.wmap,
            trap: self.trap,
            e: self.e,
            o: self.o,
            switches: self.switches,
            lights: self.lights,
        }
    }

    // The word at an address of a map.
    pub fn read(self, map: Map, at: u16, pages: &[u16], memory: &[u16]) -> Result<u16, Trouble>
        ensures { result ≡ fetched pages.now memory.now self.wmap map at self.a self.b }
    {
        let maps = Maps {
            pages,
            wmap: self.wmap,
        };
        maps.read(map, at, memory, self.a, self.b)
    }

    // Where an address word leads.
    pub fn follow(self, word: u16, pages: &[u16], memory: &[u16]) -> Result<u16, Trouble>
        ensures { result ≡ chain pages.now memory.now self.wmap word self.a self.b }
    {
        let maps = Maps {
            pages,
            wmap: self.wmap,
        };
        maps.follow(word, memory, self.a, self.b)
    }

    // The record that words are, if they are one: by the names that the library has for numbers and their bytes.
    #[tactic(auto, unfolding(crate::specs::Record::registers_of))]
    pub fn from_words(words: &[u16]) -> Option<Registers>
        ensures { result ≡ registers_of words.now }
    {
        let [
            a,
            b,
            x,
            y,
            p,
            e,
            o,
            wmap,
            imap,
            violation,
            interrupt,
            trap,
            switches,
            lights,
        ] = *words
        else {
            return None;
        };
        if 1 < e || 1 < o {
            return None;
        }
        Some(Registers {
            a,
            b,
            x,
            y,
            p,
            e: e == 1,
            o: o == 1,
            wmap,
            imap,
            violation,
            interrupt,
            trap,
            switches: u8::try_from(switches).ok()?,
            lights: u8::try_from(lights).ok()?,
        })
    }

    pub fn to_words(self) -> [u16; RECORD_WORDS]
        ensures { result ≡ words_of self }
    {
        [
            self.a,
            self.b,
            self.x,
            self.y,
            self.p,
            weight_of(self.e),
            weight_of(self.o),
            self.wmap,
            self.imap,
            self.violation,
            self.interrupt,
            self.trap,
            u16::from(self.switches),
            u16::from(self.lights),
        ]
    }
}
