// Memory references: the address, and what is done there but for the skips.
ghost use Rattle.std.specs.Prelude.{◌≡◌, ◌/◌, ◌%◌};
ghost use Rattle.word.specs.Words.{bit};
ghost use Rattle.maps.specs.declared.pages.Map.TheVariants.{Execute};
ghost use Rattle.acts.specs.Acts.{load, save, fin, go_on};
ghost use Rattle.effects.specs.Ways.{taken};
ghost use Rattle.rules.specs.Rules.{memory_word};
ghost use Rattle.lane.specs.Lane.{Tried, Led, Keeps, Steps};

use acts::record::Registers;
use effects::ways::Taking;
use maps::pages::{Map, Maps, Place, Purpose};
use rules::memory::memory_word;
use word::sums::increment;

// Where an address word leads, by one level at most.
#[tactic(auto, using(crate::proofs::Ways::once, crate::proofs::Ways::direct))]
pub(crate) fn lead(word: u16, r: Registers, pages: &[u16], memory: &[u16]) -> Option<u16>
    ensures { Led pages.now word r memory.now result }
{
    if word < 0o100000 {
        return Some(word);
    }
    let next = r.read(Map::Execute, word, pages, memory).ok()?;
    if next < 0o100000 {
        return Some(next);
    }
    None
}

// The address of a memory reference. The word's own bit 15 is tested first: most have it clear.
pub(crate) fn reach(word: u16, r: Registers, pages: &[u16], memory: &[u16]) -> Option<u16>
    ensures { Led pages.now (memory_word (bit 15 word) (bit 10 word) (word % 0o2000) r.p) r memory.now result }
{
    let current = word / 0o2000 % 2 == 1;
    let offset = word % 0o2000;
    if word < 0o100000 {
        return Some(memory_word(false, current, offset, r.p));
    }
    lead(memory_word(true, current, offset, r.p), r, pages, memory)
}

// The word at an address is read, and the registers follow.
pub(crate) fn take(
    taking: Taking,
    at: u16,
    r: Registers,
    pages: &[u16],
    memory: &[u16],
) -> Option<Registers>
    ensures { Tried pages.now (load Execute at (λ v. fin (taken taking v 1))) r memory.now result memory.now }
{
    let v = r.read(Map::Execute, at, pages, memory).ok()?;
    Some(taking.apply(v, 1, r))
}

// A word is stored in memory. One that goes to A or B is left. WMAP and page registers are told apart, as the caller has them.
#[tactic(auto, using(crate::proofs::Ways::below, crate::proofs::Ways::placed))]
fn store(value: u16, at: u16, wmap: u16, pages: &[u16], memory: &mut [u16]) -> Option<()>
    ensures { Keeps pages.now wmap at value memory.old result memory.new }
{
    let length = memory.len();
    let maps = Maps { pages, wmap };
    let place = maps.place(Map::Execute, Purpose::Store, at, length).ok()?;
    let Place::Memory(index) = place else {
        return None;
    };
    memory[index] = value;
    Some(())
}

// A word is stored, and P is then elsewhere.
pub(crate) fn put(
    value: u16,
    at: u16,
    to: u16,
    r: Registers,
    pages: &[u16],
    memory: &mut [u16],
) -> Option<Registers>
    ensures { Tried pages.now (save Execute at value (go_on to)) r memory.old result memory.new }
{
    store(value, at, r.wmap, pages, memory)?;
    Some(r.at(to))
}

// ISZ but for its skip: the word plus one, which is stored.
pub(crate) fn step(at: u16, r: Registers, pages: &[u16], memory: &mut [u16]) -> Option<u16>
    ensures { Steps pages.now at r memory.old result memory.new }
{
    let stepped = increment(r.read(Map::Execute, at, pages, memory).ok()?).word;
    store(stepped, at, r.wmap, pages, memory)?;
    Some(stepped)
}
