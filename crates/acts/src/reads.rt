// The reading part of an instruction that has an address word.
ghost use Rattle.acts.specs.Acts.{operand, Gives};

use crate::record::Registers;
use maps::pages::Map;
use maps::troubles::Trouble;
use word::sums::past;

// Where the word leads that follows the instruction's first by n. Drawn into its callers: called, it cost SBS and CBS, which ask
// twice, a tenth.
#[inline(always)]
pub fn get_address(n: u16, r: Registers, pages: &[u16], memory: &[u16]) -> Result<u16, Trouble>
    ensures { Gives pages.now (operand n r) r memory.now result }
{
    let word = r.read(Map::Execute, past(r.p, n), pages, memory)?;
    r.follow(word, pages, memory)
}
