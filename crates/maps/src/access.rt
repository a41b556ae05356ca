// A word at a logical address, read and stored.
ghost use Rattle.std.specs.Prelude.{◌<◌, ◌≡◌, length, set};
ghost use Rattle.maps.specs.Access.{fetched, Stored};

use crate::pages::{Map, Maps, Place, Purpose};
use crate::troubles::Trouble;

// The word at an index is written, and no other: a function of its own, at whose promise a store of two words is refused.
fn set_word(memory: &mut [u16], index: usize, value: u16)
    requires { index < length memory.old }
    ensures { memory.new ≡ set memory.old index value }
{
    memory[index] = value;
}

impl<'a> Maps<'a> {
    // The word at an address. `a` and `b` are the words that A and B hold, as the record stands above this layer.
    #[tactic(auto, using(crate::proofs::Laws::place_below), unfolding(crate::specs::Access::fetched))]
    pub fn read(
        self,
        map: Map,
        address: u16,
        memory: &[u16],
        a: u16,
        b: u16,
    ) -> Result<u16, Trouble>
        ensures { result ≡ fetched self.entry.pages.now memory.now self.entry.wmap map address a b }
    {
        match self.place(map, Purpose::Read, address, memory.len())? {
            Place::A => Ok(a),
            Place::B => Ok(b),
            Place::Memory(index) => Ok(memory[index]),
        }
    }

    // Stores a word of memory. A store to A or B is the caller's to carry out.
    #[tactic(auto, using(crate::proofs::Laws::place_below))]
    pub fn store(
        self,
        map: Map,
        address: u16,
        value: u16,
        memory: &mut [u16],
    ) -> Result<Place, Trouble>
        ensures { Stored self.entry.pages.now memory.old self.entry.wmap map address value result memory.new }
    {
        let place = self.place(map, Purpose::Store, address, memory.len())?;
        if let Place::Memory(index) = place {
            set_word(memory, index, value);
        }
        Ok(place)
    }
}
