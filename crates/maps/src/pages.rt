// Where a logical address leads: a register, a word of memory, a closed page or an absent one.
ghost use Rattle.std.specs.Prelude.{◌≡◌, ◌&&◌};
ghost use Rattle.maps.specs.Pages.{map_number, register_of, protecting, switched, closed_to, index_in};
ghost use Rattle.maps.specs.Pages.{is_register, is_open, presence, place};

use crate::troubles::Trouble;

// The three current maps, which WMAP names.
#[derive(Clone, Copy, Debug, PartialEq, Eq)]
pub enum Map {
    Execute,
    Data1,
    Data2,
}

// What an access is for. A byte store keeps the other half of its word, and is both.
#[derive(Clone, Copy, Debug, PartialEq, Eq)]
pub enum Purpose {
    Read,
    Store,
    Both,
}

// Where an access ends: A, B, or an index into memory.
#[derive(Clone, Copy, Debug, PartialEq, Eq)]
pub enum Place {
    A,
    B,
    Memory(usize),
}

// Page registers and WMAP: what tells where a logical address leads. It is written out where it is used: a function that made it
// would promise its two fields, and each user's proof would cite them.
#[derive(Clone, Copy)]
pub struct Maps<'a> {
    pub pages: &'a [u16],
    pub wmap: u16,
}

impl Map {
    fn number(self, wmap: u16) -> u16
        ensures { result ≡ map_number self wmap }
    {
        match self {
            Map::Execute => wmap % 32,
            Map::Data1 => wmap / 32 % 32,
            Map::Data2 => wmap / 1024 % 32,
        }
    }

    // Whether an address is A or B: 0 and 1 of the Execute map are, in any other they are memory.
    pub fn is_register(self, address: u16) -> bool
        ensures { result ≡ is_register self address }
    {
        match self {
            Map::Execute => address % 32768 < 2,
            Map::Data1 | Map::Data2 => false,
        }
    }
}

// Whether protection is on.
pub fn is_protecting(wmap: u16) -> bool
    ensures { result ≡ protecting wmap }
{
    wmap / 32768 % 2 == 1
}

// WMAP after an interrupt: the maps are switched, and protection is off.
pub fn switch_maps(wmap: u16) -> u16
    ensures { result ≡ switched wmap }
{
    wmap / 1024 % 32 * 1024 + wmap % 32 * 32
}

impl Purpose {
    // Whether a page register closes its page to the purpose, with protection on.
    fn is_closed_by(self, register: u16) -> bool
        ensures { result ≡ closed_to self register }
    {
        match self {
            Purpose::Read => register / 32768 % 2 == 1,
            Purpose::Store => register / 16384 % 2 == 1,
            Purpose::Both => register / 32768 % 2 == 1 || register / 16384 % 2 == 1,
        }
    }
}

fn index_of(register: u16, address: u16) -> usize
    ensures { result ≡ index_in register address }
{
    (register % 16384) as usize * 1024 + (address % 1024) as usize
}

impl<'a> Maps<'a> {
    // The page register of an address. One past the lent registers reads as 0.
    fn register(self, map: Map, address: u16) -> u16
        ensures { result ≡ register_of self.entry.pages.now self.entry.wmap map address }
    {
        let at = map.number(self.wmap) as usize * 32 + (address / 1024 % 32) as usize;
        if at < self.pages.len() {
            return self.pages[at];
        }
        0
    }

    // The test of protection alone.
    #[tactic(auto, unfolding(crate::specs::Pages::is_open))]
    pub fn is_open(self, map: Map, purpose: Purpose, address: u16) -> bool
        ensures { result ≡ is_open self.entry.pages.now self.entry.wmap map purpose address }
    {
        if map.is_register(address) {
            return true;
        }
        let register = self.register(map, address);
        !(is_protecting(self.wmap) && purpose.is_closed_by(register))
    }

    // The test of presence alone, for a memory of `length` words. `place` has it again, after the test of protection: the edit
    // presence_before_protection exchanges the two there.
    #[tactic(auto, unfolding(crate::specs::Pages::presence))]
    pub fn presence(self, map: Map, address: u16, length: usize) -> Result<(), Trouble>
        ensures { result ≡ presence self.entry.pages.now self.entry.wmap map address length }
    {
        if map.is_register(address) {
            return Ok(());
        }
        let register = self.register(map, address);
        if index_of(register, address) < length {
            return Ok(());
        }
        Err(Trouble::Absent(register % 16384))
    }

    // Where an access ends: protection is tested before presence.
    #[tactic(auto, unfolding(crate::specs::Pages::place, crate::specs::Pages::is_open, crate::specs::Pages::presence, crate::specs::Pages::spot))]
    pub fn place(
        self,
        map: Map,
        purpose: Purpose,
        address: u16,
        length: usize,
    ) -> Result<Place, Trouble>
        ensures { result ≡ place self.entry.pages.now self.entry.wmap map purpose address length }
    {
        if map.is_register(address) {
            if address % 32768 == 0 {
                return Ok(Place::A);
            }
            return Ok(Place::B);
        }
        let register = self.register(map, address);
        let index = index_of(register, address);
        let page = register % 16384;
        if is_protecting(self.wmap) && purpose.is_closed_by(register) {
            return Err(Trouble::Closed);
        }
        if index < length {
            return Ok(Place::Memory(index));
        }
        Err(Trouble::Absent(page))
    }
}
