// A move of 1,500 words of which the last 492 have trouble: the first 1,008 are open and present. The
// expected reply is that of the paper's table, in the order 5, 1, 4 of the rule of MVW, with every
// word of memory as given. The last line is the same move with nothing in its way.
use crate::state::{Memory, plain_pages, set_program};
use acts::record::Registers;
use std::{array, io};

// Page 1 has `first` in its page register, page 2 `second`, page 31 names page 2.
struct Move {
    label: &'static str,
    wmap: u16,
    first: u16,
    second: u16,
    a: u16,
    b: u16,
}

const ON: u16 = 0o100000;

const LOW: u16 = 0o100;

const HIGH: u16 = 0o2020;

const LAST: u16 = 0o76020;

static MOVES: [Move; 9] = [
    Move {
        label: "into a store-protected page",
        wmap: ON,
        first: 1,
        second: 0o040002,
        a: LOW,
        b: HIGH,
    },
    Move {
        label: "out of a read-protected page",
        wmap: ON,
        first: 1,
        second: 0o100002,
        a: HIGH,
        b: LOW,
    },
    Move {
        label: "into an absent page",
        wmap: 0,
        first: 1,
        second: 5,
        a: LOW,
        b: HIGH,
    },
    Move {
        label: "out of an absent page",
        wmap: 0,
        first: 1,
        second: 5,
        a: HIGH,
        b: LOW,
    },
    Move {
        label: "into A and B",
        wmap: 0,
        first: 1,
        second: 2,
        a: LOW,
        b: LAST,
    },
    Move {
        label: "out of A and B",
        wmap: 0,
        first: 1,
        second: 2,
        a: LAST,
        b: LOW,
    },
    Move {
        label: "absent first, then protected",
        wmap: ON,
        first: 5,
        second: 0o040002,
        a: LOW,
        b: HIGH,
    },
    Move {
        label: "protected first, then A and B",
        wmap: ON,
        first: 0o100001,
        second: 2,
        a: HIGH,
        b: LAST,
    },
    Move {
        label: "protection off",
        wmap: 0,
        first: 1,
        second: 0o140002,
        a: LOW,
        b: HIGH,
    },
];

// Each word its own address, but for the program and the count.
fn pattern() -> Memory {
    let mut memory = array::from_fn(|i| i as u16);
    set_program(&mut memory, [0o105777, 0o10, 0]);
    memory[0o10] = 1500;
    memory
}

impl Move {
    fn run(&self, rt: &impl Print) -> io::Result<()> {
        let mut pages = plain_pages();
        pages[1] = self.first;
        pages[2] = self.second;
        pages[31] = 2;
        let before = pattern();
        let mut memory = before;
        let registers = Registers {
            wmap: self.wmap,
            a: self.a,
            b: self.b,
            ..Registers::fresh()
        };
        let stepped = machine::step::step(registers, &mut pages, &mut memory);
        let label = self.label;
        let reply = u32::from(stepped.reply);
        let change = if memory == before {
            "unchanged"
        } else {
            "changed"
        };
        println!(rt; "{label} {reply} {change}")
    }
}

pub(crate) fn run(rt: &impl Print) -> io::Result<()> {
    for case in &MOVES {
        case.run(rt)?;
    }
    Ok(())
}
