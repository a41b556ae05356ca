// A store that is the last act of an instruction. Both functions are drawn into what stores: a call hands the record over in memory.
ghost use Rattle.acts.specs.Acts.{Performs, save, fin, go_on};

use crate::record::Registers;
use crate::replies::Stop;
use code::codes::Register;
use maps::pages::{Map, Maps, Place};

// A word is stored at an address. The registers are then r, but for what the store changes.
#[inline(always)]
pub fn put_last(
    value: u16,
    map: Map,
    at: u16,
    r: Registers,
    pages: &[u16],
    memory: &mut [u16],
) -> Result<Registers, Stop>
    ensures { Performs pages.now (save map at value (fin (λ q. q))) r memory.old result memory.new }
{
    let maps = Maps {
        pages,
        wmap: r.wmap,
    };
    Ok(match maps.store(map, at, value, memory)? {
        Place::A => r.with_register(Register::A, value),
        Place::B => r.with_register(Register::B, value),
        Place::Memory(_) => r,
    })
}

// A word is stored at an address, and P goes on elsewhere.
#[inline(always)]
pub fn put(
    value: u16,
    map: Map,
    at: u16,
    to: u16,
    r: Registers,
    pages: &[u16],
    memory: &mut [u16],
) -> Result<Registers, Stop>
    ensures { Performs pages.now (save map at value (go_on to)) r memory.old result memory.new }
{
    put_last(value, map, at, r.at(to), pages, memory)
}
