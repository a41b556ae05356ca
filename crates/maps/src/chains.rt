// An indirect chain, through the Execute map.
ghost use Rattle.std.specs.Prelude.{◌≡◌};
ghost use Rattle.word.specs.Words.{bit};
ghost use Rattle.maps.specs.Chains.{chain};

use crate::pages::{Map, Maps};
use crate::troubles::Trouble;

// A chain whose first words, so many, all ask for more never ends.
const LEVELS: u16 = 32768;

fn is_indirect(word: u16) -> bool
    ensures { result ≡ bit 15 word }
{
    word / 0o100000 % 2 == 1
}

impl<'a> Maps<'a> {
    // Follows an address word: its bit 15 asks for the word that it addresses.
    #[tactic(auto, using(crate::proofs::Accesses::chased_ends, crate::proofs::Accesses::chased_out), unfolding(crate::specs::Chains::chain))]
    pub fn follow(self, word: u16, memory: &[u16], a: u16, b: u16) -> Result<u16, Trouble>
        ensures { result ≡ chain self.entry.pages.now memory.now self.entry.wmap word a b }
    {
        let mut last = word;
        for _ in 0..LEVELS {
            if !is_indirect(last) {
                return Ok(last % 0o100000);
            }
            last = self.read(Map::Execute, last, memory, a, b)?;
        }
        if is_indirect(last) {
            return Err(Trouble::Endless);
        }
        Ok(last % 0o100000)
    }
}
