// Reads all 65,536 words and prints how many are of each class.
#![tactic(auto)]

use code::instructions::{Instruction, read_instruction};
use std::{fmt, io};

// In the order of the listing.
#[derive(Clone, Copy, Debug, PartialEq, Eq)]
enum Class {
    MemoryReference,
    ShiftRotate,
    AlterSkip,
    InputOutput,
    Extended,
    LongShift,
    NotBuilt,
}

static CLASSES: [Class; 7] = [
    Class::MemoryReference,
    Class::ShiftRotate,
    Class::AlterSkip,
    Class::InputOutput,
    Class::Extended,
    Class::LongShift,
    Class::NotBuilt,
];

impl From<Instruction> for Class {
    fn from(instruction: Instruction) -> Class {
        match instruction {
            Instruction::MemoryReference(_) => Class::MemoryReference,
            Instruction::ShiftRotate(_) => Class::ShiftRotate,
            Instruction::AlterSkip(_) => Class::AlterSkip,
            Instruction::InputOutput(_) => Class::InputOutput,
            Instruction::Extended(_) => Class::Extended,
            Instruction::LongShift { .. } => Class::LongShift,
            Instruction::NotBuilt(_) => Class::NotBuilt,
        }
    }
}

impl fmt::Display for Class {
    fn fmt<W: fmt::Write>(&self, f: &mut fmt::Formatter<W>) -> fmt::Result {
        f.write_str(match self {
            Class::MemoryReference => "memory reference",
            Class::ShiftRotate => "shift/rotate",
            Class::AlterSkip => "alter/skip",
            Class::InputOutput => "I/O",
            Class::Extended => "extended",
            Class::LongShift => "long shift",
            Class::NotBuilt => "not built",
        })
    }
}

fn main(rt: HostRuntime) -> io::Result<()> {
    let mut counts = [0u32; CLASSES.len()];
    for word in 0..=u16::MAX {
        counts[Class::from(read_instruction(word)) as usize] += 1;
    }
    for (class, count) in CLASSES.iter().zip(counts) {
        println!(rt; "{class} {count}")?;
    }
    Ok(())
}
