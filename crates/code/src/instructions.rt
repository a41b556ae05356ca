// Every word read as one instruction, and every instruction that has a word written back.
ghost use Rattle.std.specs.Prelude.{◌≡◌, ◌≤◌};
ghost use Rattle.code.specs.Instructions.{memory_fields, memory_reference, shift_fields, shift_rotate, alter_fields, alter_skip};
ghost use Rattle.code.specs.Instructions.{input_output, extended, reading};
ghost use Rattle.code.specs.Instructions.{places, write_memory_reference, write_shift_rotate, write_alter_skip, write_input_output};
ghost use Rattle.code.specs.Instructions.{write_long_shift, write_extended, built, write_not_built, writing};

use crate::choices::{alter_at, io_at, operation_at, register_at, shift_at, shift_number};
use crate::codes::{Extended, Kind, Register, find_kind, find_word};
use word::long::LongShift;
use word::shifts::ShiftCode;

#[derive(Clone, Copy, Debug, PartialEq, Eq)]
pub enum Operation {
    And = 0o010000,
    Jsb = 0o014000,
    Xor = 0o020000,
    Jmp = 0o024000,
    Ior = 0o030000,
    Isz = 0o034000,
    Ada = 0o040000,
    Adb = 0o044000,
    Cpa = 0o050000,
    Cpb = 0o054000,
    Lda = 0o060000,
    Ldb = 0o064000,
    Sta = 0o070000,
    Stb = 0o074000,
}

#[derive(Clone, Copy, Debug, PartialEq, Eq)]
pub struct MemoryReference {
    pub operation: Operation,
    pub indirect: bool,
    pub current: bool,
    pub offset: u16,
}

// The first shift, CLE, SLA and the second shift, in this order.
#[derive(Clone, Copy, Debug, PartialEq, Eq)]
pub struct ShiftRotate {
    pub register: Register,
    pub enabled1: bool,
    pub shift1: ShiftCode,
    pub cle: bool,
    pub sla: bool,
    pub enabled2: bool,
    pub shift2: ShiftCode,
}

// What is done to A or B (CLA, CMA, CCA) or to E (CLE, CME, CCE).
#[derive(Clone, Copy, Debug, PartialEq, Eq)]
pub enum Alter {
    Keep,
    Clear,
    Complement,
    Ones,
}

#[derive(Clone, Copy, Debug, PartialEq, Eq)]
pub struct AlterSkip {
    pub register: Register,
    pub alter: Alter,
    pub sez: bool,
    pub extend: Alter,
    pub ssa: bool,
    pub sla: bool,
    pub ina: bool,
    pub sza: bool,
    pub rss: bool,
}

// `Flag` is STF, or CLF with bit 9; `Control` is STC, or CLC with bit 11.
#[derive(Clone, Copy, Debug, PartialEq, Eq)]
pub enum IoOperation {
    Hlt,
    Flag,
    Sfc,
    Sfs,
    Mia,
    Lia,
    Ota,
    Control,
}

#[derive(Clone, Copy, Debug, PartialEq, Eq)]
pub struct InputOutput {
    pub operation: IoOperation,
    pub bit11: bool,
    pub bit9: bool,
    pub select: u16,
}

#[derive(Clone, Copy, Debug, PartialEq, Eq)]
pub enum Instruction {
    MemoryReference(MemoryReference),
    ShiftRotate(ShiftRotate),
    AlterSkip(AlterSkip),
    InputOutput(InputOutput),
    LongShift { kind: LongShift, places: u16 },
    Extended(Extended),
    NotBuilt(u16),
}

// Reading, field by field.

// The fields of a memory reference word, whatever the bits are that tell it for one.
pub fn memory_reference_of(word: u16) -> MemoryReference
    ensures { result ≡ memory_fields word }
{
    MemoryReference {
        operation: operation_at(word / 0o4000 % 16),
        indirect: word / 0o100000 % 2 == 1,
        current: word / 0o2000 % 2 == 1,
        offset: word % 0o2000,
    }
}

#[tactic(auto, unfolding(crate::specs::Instructions::memory_reference))]
fn read_memory_reference(word: u16) -> Instruction
    ensures { result ≡ memory_reference word }
{
    Instruction::MemoryReference(memory_reference_of(word))
}

// The fields of a shift/rotate word, likewise.
pub fn shift_rotate_of(word: u16) -> ShiftRotate
    ensures { result ≡ shift_fields word }
{
    ShiftRotate {
        register: register_at(word / 0o4000 % 2),
        enabled1: word / 0o1000 % 2 == 1,
        shift1: shift_at(word / 0o100 % 8),
        cle: word / 0o40 % 2 == 1,
        sla: word / 0o10 % 2 == 1,
        enabled2: word / 0o20 % 2 == 1,
        shift2: shift_at(word % 8),
    }
}

#[tactic(auto, unfolding(crate::specs::Instructions::shift_rotate))]
fn read_shift_rotate(word: u16) -> Instruction
    ensures { result ≡ shift_rotate word }
{
    Instruction::ShiftRotate(shift_rotate_of(word))
}

// The fields of an alter/skip word, likewise.
pub fn alter_skip_of(word: u16) -> AlterSkip
    ensures { result ≡ alter_fields word }
{
    AlterSkip {
        register: register_at(word / 0o4000 % 2),
        alter: alter_at(word / 0o400 % 4),
        sez: word / 0o40 % 2 == 1,
        extend: alter_at(word / 0o100 % 4),
        ssa: word / 0o20 % 2 == 1,
        sla: word / 0o10 % 2 == 1,
        ina: word / 0o4 % 2 == 1,
        sza: word / 0o2 % 2 == 1,
        rss: word % 2 == 1,
    }
}

#[tactic(auto, unfolding(crate::specs::Instructions::alter_skip))]
fn read_alter_skip(word: u16) -> Instruction
    ensures { result ≡ alter_skip word }
{
    Instruction::AlterSkip(alter_skip_of(word))
}

#[tactic(auto, unfolding(crate::specs::Instructions::input_output))]
fn read_input_output(word: u16) -> Instruction
    ensures { result ≡ input_output word }
{
    Instruction::InputOutput(InputOutput {
        operation: io_at(word / 0o100 % 8),
        bit11: word / 0o4000 % 2 == 1,
        bit9: word / 0o1000 % 2 == 1,
        select: word % 0o100,
    })
}

// The count of a long shift: its low four bits, 0 means 16. A field of an instruction; word's own makes the type, with its
// bounds, that its shifts take.
fn places_of(word: u16) -> u16
    ensures { result ≡ places word }
{
    if word % 16 == 0 { 16 } else { word % 16 }
}

#[tactic(auto, unfolding(crate::specs::Instructions::extended))]
fn read_extended(word: u16) -> Instruction
    ensures { result ≡ extended word }
{
    match find_word(word) {
        Some(row) => match row.kind {
            Kind::Exact(code) => Instruction::Extended(code),
            Kind::Long(kind) => Instruction::LongShift {
                kind,
                places: places_of(word),
            },
        },
        None => Instruction::NotBuilt(word),
    }
}

#[tactic(auto, unfolding(crate::specs::Instructions::reading))]
pub fn read_instruction(word: u16) -> Instruction
    ensures { result ≡ reading word }
{
    if 2 <= word / 0o4000 % 16 {
        return read_memory_reference(word);
    }
    if word / 0o100000 % 2 == 1 {
        if word / 0o2000 % 2 == 1 {
            return read_input_output(word);
        }
        return read_extended(word);
    }
    if word / 0o2000 % 2 == 1 {
        return read_alter_skip(word);
    }
    read_shift_rotate(word)
}

// Writing, field by field.

#[tactic(auto, unfolding(crate::specs::Instructions::write_memory_reference))]
fn write_memory_reference(m: MemoryReference) -> Option<u16>
    ensures { result ≡ write_memory_reference m }
{
    if 0o1777 < m.offset {
        return None;
    }
    Some(
        u16::from(m.indirect) * 0o100000
            + u16::from(m.operation)
            + u16::from(m.current) * 0o2000
            + m.offset,
    )
}

#[tactic(auto, unfolding(crate::specs::Instructions::write_shift_rotate))]
fn write_shift_rotate(s: ShiftRotate) -> Option<u16>
    ensures { result ≡ write_shift_rotate s }
{
    Some(
        u16::from(s.register) * 0o4000
            + u16::from(s.enabled1) * 0o1000
            + shift_number(s.shift1) * 0o100
            + u16::from(s.cle) * 0o40
            + u16::from(s.enabled2) * 0o20
            + u16::from(s.sla) * 0o10
            + shift_number(s.shift2),
    )
}

#[tactic(auto, using(crate::proofs::Picks::flag_weight, crate::proofs::Picks::flag_small), unfolding(crate::specs::Instructions::write_alter_skip))]
fn write_alter_skip(s: AlterSkip) -> Option<u16>
    ensures { result ≡ write_alter_skip s }
{
    Some(
        0o2000
            + u16::from(s.register) * 0o4000
            + u16::from(s.alter) * 0o400
            + u16::from(s.extend) * 0o100
            + u16::from(s.sez) * 0o40
            + u16::from(s.ssa) * 0o20
            + u16::from(s.sla) * 0o10
            + u16::from(s.ina) * 0o4
            + u16::from(s.sza) * 0o2
            + u16::from(s.rss),
    )
}

#[tactic(auto, unfolding(crate::specs::Instructions::write_input_output))]
fn write_input_output(io: InputOutput) -> Option<u16>
    ensures { result ≡ write_input_output io }
{
    if 0o77 < io.select {
        return None;
    }
    Some(
        0o102000
            + u16::from(io.bit11) * 0o4000
            + u16::from(io.bit9) * 0o1000
            + u16::from(io.operation) * 0o100
            + io.select,
    )
}

#[tactic(auto, using(crate::proofs::Table::code_small), unfolding(crate::specs::Instructions::write_long_shift))]
fn write_long_shift(shift: LongShift, places: u16) -> Option<u16>
    ensures { result ≡ write_long_shift shift places }
{
    if places == 0 {
        return None;
    }
    if 16 < places {
        return None;
    }
    let row = find_kind(Kind::Long(shift))?;
    Some(row.code + places % 16)
}

#[tactic(auto, unfolding(crate::specs::Instructions::write_extended))]
fn write_extended(code: Extended) -> Option<u16>
    ensures { result ≡ write_extended code }
{
    find_kind(Kind::Exact(code)).map(|row| row.code)
}

fn is_built(instruction: Instruction) -> bool
    ensures { result ≡ built instruction }
{
    !matches!(instruction, Instruction::NotBuilt(_))
}

#[tactic(auto, unfolding(crate::specs::Instructions::write_not_built))]
fn write_not_built(word: u16) -> Option<u16>
    ensures { result ≡ write_not_built word }
{
    if is_built(read_instruction(word)) {
        return None;
    }
    Some(word)
}

#[tactic(auto, unfolding(crate::specs::Instructions::writing))]
pub fn write_instruction(instruction: Instruction) -> Option<u16>
    ensures { result ≡ writing instruction }
{
    match instruction {
        Instruction::MemoryReference(fields) => write_memory_reference(fields),
        Instruction::ShiftRotate(fields) => write_shift_rotate(fields),
        Instruction::AlterSkip(fields) => write_alter_skip(fields),
        Instruction::InputOutput(fields) => write_input_output(fields),
        Instruction::LongShift { kind, places } => write_long_shift(kind, places),
        Instruction::Extended(code) => write_extended(code),
        Instruction::NotBuilt(word) => write_not_built(word),
    }
}
