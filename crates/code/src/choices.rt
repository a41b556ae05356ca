// The fields of an instruction that are a choice: each choice's number, and the choice at a number. A number
// past the last choice gives the last.
ghost use Rattle.std.specs.Prelude.{◌≡◌, ◌≤◌};
ghost use Rattle.code.specs.Instructions.{operation_code, operation_at, register_flag, register_at, shift_number, shift_at};
ghost use Rattle.code.specs.Instructions.{alter_number, alter_at, io_number, io_at};

use crate::codes::Register;
use crate::instructions::{Alter, IoOperation, Operation};
use word::shifts::ShiftCode;

// From a choice to its number. The bound is for the sums of the writer.

impl From<Operation> for u16 {
    ghost from_gives = { λ operation n. (n ≡ operation_code operation) × (n ≤ 0o74000) };

    fn from(operation: Operation) -> u16 {
        operation as u16
    }
}

impl From<Register> for u16 {
    ghost from_gives = { λ register n. (n ≡ register_flag register) × (n ≤ 1) };

    fn from(register: Register) -> u16 {
        register as u16
    }
}

impl From<Alter> for u16 {
    ghost from_gives = { λ alter n. (n ≡ alter_number alter) × (n ≤ 3) };

    fn from(alter: Alter) -> u16 {
        alter as u16
    }
}

impl From<IoOperation> for u16 {
    ghost from_gives = { λ operation n. (n ≡ io_number operation) × (n ≤ 7) };

    fn from(operation: IoOperation) -> u16 {
        operation as u16
    }
}

// A shift code is of another crate, so this is no `From`.
pub fn shift_number(code: ShiftCode) -> u16
    ensures is { result ≡ shift_number code }
    ensures small { result ≤ 7 }
{
    code as u16
}

// From a number to the choice that has it. None of these can fail, so they are no `TryFrom`.

// By bits 14 to 11. A number below AND's, which no memory reference has, gives AND.
pub fn operation_at(n: u16) -> Operation
    ensures { result ≡ operation_at n }
{
    match n {
        0..=2 => Operation::And,
        3 => Operation::Jsb,
        4 => Operation::Xor,
        5 => Operation::Jmp,
        6 => Operation::Ior,
        7 => Operation::Isz,
        8 => Operation::Ada,
        9 => Operation::Adb,
        10 => Operation::Cpa,
        11 => Operation::Cpb,
        12 => Operation::Lda,
        13 => Operation::Ldb,
        14 => Operation::Sta,
        _ => Operation::Stb,
    }
}

pub fn register_at(n: u16) -> Register
    ensures { result ≡ register_at n }
{
    if n == 0 { Register::A } else { Register::B }
}

pub fn shift_at(n: u16) -> ShiftCode
    ensures { result ≡ shift_at n }
{
    match n {
        0 => ShiftCode::Als,
        1 => ShiftCode::Ars,
        2 => ShiftCode::Ral,
        3 => ShiftCode::Rar,
        4 => ShiftCode::Alr,
        5 => ShiftCode::Era,
        6 => ShiftCode::Ela,
        _ => ShiftCode::Alf,
    }
}

pub fn alter_at(n: u16) -> Alter
    ensures { result ≡ alter_at n }
{
    match n {
        0 => Alter::Keep,
        1 => Alter::Clear,
        2 => Alter::Complement,
        _ => Alter::Ones,
    }
}

pub fn io_at(n: u16) -> IoOperation
    ensures { result ≡ io_at n }
{
    match n {
        0 => IoOperation::Hlt,
        1 => IoOperation::Flag,
        2 => IoOperation::Sfc,
        3 => IoOperation::Sfs,
        4 => IoOperation::Mia,
        5 => IoOperation::Lia,
        6 => IoOperation::Ota,
        _ => IoOperation::Control,
    }
}
