// Instructions as ten flat fields: the calls that read and write one. The numbers of the classes are the C interface's.
ghost use Rattle.std.specs.Prelude.{◌≡◌, length};
ghost use Rattle.code.specs.Instructions.{writing, word_of};
ghost use Rattle.a400.specs.Calls.{Answers};
ghost use Rattle.a400.specs.Fields.{long_kind, fields_of, writing_fields, read_call, write_call};
ghost use Rattle.a400.specs.Unchecked.{long_at, memory_reference_at, shift_rotate_at, alter_skip_at, input_output_at, instruction_at};

use crate::{BAD_CALL, NO_WORD};
use code::choices::{alter_at, io_at, operation_at, register_at, shift_at, shift_number};
use code::codes::Extended;
use code::instructions::{
    AlterSkip, InputOutput, Instruction, MemoryReference, ShiftRotate, read_instruction,
    write_instruction,
};
use word::long::LongShift;

// How many fields an instruction has.
const FIELDS: usize = 10;

// The long shifts and their numbers; the other choices are in `code`. A number past the last gives the last, so that no TryFrom would
// fail; and a `From` for u16 may stand in the enum's own crate alone.

fn long_number(shift: LongShift) -> u16
    ensures { result ≡ long_kind shift }
{
    shift as u16
}

fn long_at(n: u16) -> LongShift
    ensures { result ≡ long_at n }
{
    match n {
        0 => LongShift::Asl,
        1 => LongShift::Lsl,
        2 => LongShift::Rrl,
        3 => LongShift::Asr,
        4 => LongShift::Lsr,
        _ => LongShift::Rrr,
    }
}

// From an instruction to its fields.

fn shift_rotate_fields(s: ShiftRotate) -> [u16; FIELDS]
    ensures { result ≡ fields_of (Instruction.ShiftRotate s) }
{
    [
        1,
        u16::from(s.register),
        u16::from(s.enabled1),
        shift_number(s.shift1),
        u16::from(s.cle),
        u16::from(s.sla),
        u16::from(s.enabled2),
        shift_number(s.shift2),
        0,
        0,
    ]
}

fn alter_skip_fields(s: AlterSkip) -> [u16; FIELDS]
    ensures { result ≡ fields_of (Instruction.AlterSkip s) }
{
    [
        2,
        u16::from(s.register),
        u16::from(s.alter),
        u16::from(s.sez),
        u16::from(s.extend),
        u16::from(s.ssa),
        u16::from(s.sla),
        u16::from(s.ina),
        u16::from(s.sza),
        u16::from(s.rss),
    ]
}

fn code_word(code: Extended) -> u16
    ensures { result ≡ word_of (writing (Instruction.Extended code)) }
{
    write_instruction(Instruction::Extended(code)).unwrap_or(0)
}

fn fields_of(i: Instruction) -> [u16; FIELDS]
    ensures { result ≡ fields_of i }
{
    match i {
        Instruction::MemoryReference(m) => [
            0,
            u16::from(m.operation) / 0o4000,
            u16::from(m.indirect),
            u16::from(m.current),
            m.offset,
            0,
            0,
            0,
            0,
            0,
        ],
        Instruction::ShiftRotate(s) => shift_rotate_fields(s),
        Instruction::AlterSkip(s) => alter_skip_fields(s),
        Instruction::InputOutput(io) => [
            3,
            u16::from(io.operation),
            u16::from(io.bit11),
            u16::from(io.bit9),
            io.select,
            0,
            0,
            0,
            0,
            0,
        ],
        Instruction::LongShift { kind, places } => {
            [4, long_number(kind), places, 0, 0, 0, 0, 0, 0, 0]
        }
        Instruction::Extended(code) => [5, code_word(code), 0, 0, 0, 0, 0, 0, 0, 0],
        Instruction::NotBuilt(word) => [6, word, 0, 0, 0, 0, 0, 0, 0, 0],
    }
}

// From fields to an instruction.

fn memory_reference_at(fields: &[u16; FIELDS]) -> MemoryReference
    ensures { result ≡ memory_reference_at fields.now }
{
    MemoryReference {
        operation: operation_at(fields[1]),
        indirect: fields[2] == 1,
        current: fields[3] == 1,
        offset: fields[4],
    }
}

fn shift_rotate_at(fields: &[u16; FIELDS]) -> ShiftRotate
    ensures { result ≡ shift_rotate_at fields.now }
{
    ShiftRotate {
        register: register_at(fields[1]),
        enabled1: fields[2] == 1,
        shift1: shift_at(fields[3]),
        cle: fields[4] == 1,
        sla: fields[5] == 1,
        enabled2: fields[6] == 1,
        shift2: shift_at(fields[7]),
    }
}

fn alter_skip_at(fields: &[u16; FIELDS]) -> AlterSkip
    ensures { result ≡ alter_skip_at fields.now }
{
    AlterSkip {
        register: register_at(fields[1]),
        alter: alter_at(fields[2]),
        sez: fields[3] == 1,
        extend: alter_at(fields[4]),
        ssa: fields[5] == 1,
        sla: fields[6] == 1,
        ina: fields[7] == 1,
        sza: fields[8] == 1,
        rss: fields[9] == 1,
    }
}

fn input_output_at(fields: &[u16; FIELDS]) -> InputOutput
    ensures { result ≡ input_output_at fields.now }
{
    InputOutput {
        operation: io_at(fields[1]),
        bit11: fields[2] == 1,
        bit9: fields[3] == 1,
        select: fields[4],
    }
}

#[tactic(auto, unfolding(crate::specs::Unchecked::instruction_at))]
fn instruction_at(fields: &[u16; FIELDS]) -> Instruction
    ensures { result ≡ instruction_at fields.now }
{
    let first = fields[1];
    match fields[0] {
        0 => Instruction::MemoryReference(memory_reference_at(fields)),
        1 => Instruction::ShiftRotate(shift_rotate_at(fields)),
        2 => Instruction::AlterSkip(alter_skip_at(fields)),
        3 => Instruction::InputOutput(input_output_at(fields)),
        4 => Instruction::LongShift {
            kind: long_at(first),
            places: fields[2],
        },
        _ => read_instruction(first),
    }
}

// An instruction is taken from the fields whatever they are. Where it has other fields, no word reads as these.
fn write_fields(fields: &[u16; FIELDS]) -> Option<u16>
    ensures { result ≡ writing_fields fields.now }
{
    let instruction = instruction_at(fields);
    let again = fields_of(instruction);
    if *fields == again {
        return write_instruction(instruction);
    }
    None
}

#[unsafe(no_mangle)]
#[tactic(auto, unfolding(crate::specs::Fields::read_call))]
pub extern "C" fn a400_read(word: u16, fields: &mut [u16]) -> u32
    ensures { Answers (read_call word fields.old) result fields.new }
{
    if fields.len() != FIELDS {
        return BAD_CALL;
    }
    fields.copy_from_slice(&fields_of(read_instruction(word)));
    0
}

#[unsafe(no_mangle)]
#[tactic(auto, using(crate::proofs::Records::one_number), unfolding(crate::specs::Fields::write_call))]
pub extern "C" fn a400_write(fields: &[u16], word: &mut [u16]) -> u32
    ensures { Answers (write_call fields.now word.old) result word.new }
{
    let Ok(fields) = <&[u16; FIELDS]>::try_from(fields) else {
        return BAD_CALL;
    };
    if word.len() != 1 {
        return BAD_CALL;
    }
    match write_fields(fields) {
        Some(w) => {
            word[0] = w;
            0
        }
        None => {
            word[0] = 0;
            NO_WORD
        }
    }
}
