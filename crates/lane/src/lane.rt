// One step, if it is a frequent one, and as many of them as there are.
ghost use Rattle.std.specs.Prelude.{◌≡◌, ◌≤◌};
ghost use Rattle.rules.specs.Rules.{step_act};
ghost use Rattle.lane.specs.Lane.{Tried, carried, Rolls};

use crate::codes::extend;
use crate::group::{alter, shift};
use crate::references::{put, reach, step, take};
use acts::record::Registers;
use code::codes::Register;
use effects::ways::Taking;
use maps::pages::Map;
use word::sums::past;

// A memory reference at its address, or a word of shift/rotate or alter/skip. One match, so that there is one dispatch.
// The skips of ISZ, CPA and CPB are branches here: in a function of its own a skip would become a sum, for which the next fetch waits.
#[tactic(auto, using(crate::proofs::Ways::finished), unfolding(crate::specs::Lane::carried))]
fn carry(word: u16, at: u16, r: Registers, pages: &[u16], memory: &mut [u16]) -> Option<Registers>
    ensures { Tried pages.now (carried word at r) r memory.old result memory.new }
{
    match word / 0o4000 % 16 {
        0 => {
            if word / 0o2000 % 2 == 1 {
                Some(alter(Register::A, word, r))
            } else {
                Some(shift(Register::A, word, r))
            }
        }
        1 => {
            if word / 0o2000 % 2 == 1 {
                Some(alter(Register::B, word, r))
            } else {
                Some(shift(Register::B, word, r))
            }
        }
        2 => take(Taking::And, at, r, pages, memory),
        3 => put(past(r.p, 1), at, past(at, 1), r, pages, memory),
        4 => take(Taking::Xor, at, r, pages, memory),
        5 => Some(r.at(at)),
        6 => take(Taking::Ior, at, r, pages, memory),
        7 => {
            let stepped = step(at, r, pages, memory)?;
            if stepped == 0 {
                Some(r.ahead(2))
            } else {
                Some(r.ahead(1))
            }
        }
        8 => take(Taking::Add(Register::A), at, r, pages, memory),
        9 => take(Taking::Add(Register::B), at, r, pages, memory),
        10 => {
            let v = r.read(Map::Execute, at, pages, memory).ok()?;
            if r.a == v {
                Some(r.ahead(1))
            } else {
                Some(r.ahead(2))
            }
        }
        11 => {
            let v = r.read(Map::Execute, at, pages, memory).ok()?;
            if r.b == v {
                Some(r.ahead(1))
            } else {
                Some(r.ahead(2))
            }
        }
        12 => take(Taking::Load(Register::A), at, r, pages, memory),
        13 => take(Taking::Load(Register::B), at, r, pages, memory),
        14 => put(r.a, at, past(r.p, 1), r, pages, memory),
        _ => put(r.b, at, past(r.p, 1), r, pages, memory),
    }
}

// One step, if it is a frequent one.
fn quick(r: Registers, pages: &[u16], memory: &mut [u16]) -> Option<Registers>
    ensures { Tried pages.now (step_act r) r memory.old result memory.new }
{
    if r.trap != 0 {
        return None;
    }
    let word = r.read(Map::Execute, r.p, pages, memory).ok()?;
    if word >= 0o100000 {
        if word / 0o4000 % 16 < 2 {
            return extend(word, r, pages, memory);
        }
    }
    let at = reach(word, r, pages, memory)?;
    carry(word, at, r, pages, memory)
}

// The steps that were made, and the registers after them.
#[derive(Clone, Copy, Debug, PartialEq, Eq)]
pub struct Rolled {
    pub registers: Registers,
    pub count: u32,
}

// As many frequent steps as there are, up to so many. What it does not do, the general step does.
pub fn lane(budget: u32, r: Registers, pages: &[u16], memory: &mut [u16]) -> Rolled
    ensures { (result.count ≤ budget) × Rolls pages.now r memory.old result.count result.registers memory.new }
{
    let mut s = r;
    for count in 0..budget {
        let Some(t) = quick(s, pages, memory) else {
            return Rolled {
                registers: s,
                count,
            };
        };
        s = t;
    }
    Rolled {
        registers: s,
        count: budget,
    }
}
