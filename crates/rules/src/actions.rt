// What a word asks for, apart from registers and memory.
ghost use Rattle.std.specs.Prelude.{◌≡◌};
ghost use Rattle.code.specs.Instructions.{reading};
ghost use Rattle.rules.specs.Rules.{data_map, arithmetic_way, cross_way, transfer_action, indexing_action, bytes_action, words_action, extended_action, action};

use crate::memory::{memory_way, memory_word};
use code::codes::{
    Arithmetic, Bits, Bytes, Cross, Data, Extended, Index, Indexing, Register, Transfer, Words,
};
use code::instructions::{
    AlterSkip, InputOutput, Instruction, MemoryReference, ShiftRotate, memory_reference_of,
    read_instruction,
};
use effects::ways::{Addressing, Source, Taking, Way};
use maps::pages::Map;
use strings::strings::Element;
use word::long::LongShift;

// Where an instruction finds its address word: it is made from the instruction itself, or is the next word.
#[derive(Clone, Copy, Debug, PartialEq, Eq)]
pub enum Operand {
    Made(u16),
    Next,
}

#[derive(Clone, Copy, Debug, PartialEq, Eq)]
pub enum Action {
    At(Way, Operand),
    ShiftRotate(ShiftRotate),
    AlterSkip(AlterSkip),
    InputOutput(InputOutput),
    LongShift(LongShift, u16),
    CopyToIndex(Register, Index),
    CopyFromIndex(Register, Index),
    Exchange(Register, Index),
    CountUp(Index),
    CountDown(Index),
    LoadByte,
    StoreByte,
    Move(Element),
    Compare(Element),
    Mask(Bits),
    NotBuilt(u16),
}

fn data_map(d: Data) -> Map
    ensures { result ≡ data_map d }
{
    match d {
        Data::One => Map::Data1,
        Data::Two => Map::Data2,
    }
}

fn arithmetic_way(x: Arithmetic) -> Way
    ensures { result ≡ arithmetic_way x }
{
    match x {
        Arithmetic::Mpy => Way::Take(Taking::Multiply, Map::Execute, Addressing::Plain),
        Arithmetic::Div => Way::Take(Taking::Divide, Map::Execute, Addressing::Plain),
        Arithmetic::Dld => Way::LoadDouble,
        Arithmetic::Dst => Way::StoreDouble,
    }
}

fn cross_way(x: Cross, g: Register, d: Data) -> Way
    ensures { result ≡ cross_way x g d }
{
    match x {
        Cross::Xl => Way::Take(Taking::Load(g), data_map(d), Addressing::Plain),
        Cross::Xs => Way::Put(Source::Register(g), data_map(d), Addressing::Plain),
        Cross::Xc => Way::Take(Taking::Compare(g), data_map(d), Addressing::Plain),
    }
}

fn transfer(x: Transfer, g: Register, i: Index) -> Action
    ensures { result ≡ transfer_action x g i }
{
    match x {
        Transfer::Sax => Action::At(
            Way::Put(Source::Register(g), Map::Execute, Addressing::Indexed(i)),
            Operand::Next,
        ),
        Transfer::Cax => Action::CopyToIndex(g, i),
        Transfer::Lax => Action::At(
            Way::Take(Taking::Load(g), Map::Execute, Addressing::Indexed(i)),
            Operand::Next,
        ),
        Transfer::Cxa => Action::CopyFromIndex(g, i),
        Transfer::Xax => Action::Exchange(g, i),
    }
}

fn indexing(x: Indexing, i: Index) -> Action
    ensures { result ≡ indexing_action x i }
{
    match x {
        Indexing::Stx => Action::At(
            Way::Put(Source::Index(i), Map::Execute, Addressing::Plain),
            Operand::Next,
        ),
        Indexing::Ldx => Action::At(
            Way::Take(Taking::LoadIndex(i), Map::Execute, Addressing::Plain),
            Operand::Next,
        ),
        Indexing::Adx => Action::At(
            Way::Take(Taking::AddIndex(i), Map::Execute, Addressing::Plain),
            Operand::Next,
        ),
        Indexing::Isx => Action::CountUp(i),
        Indexing::Dsx => Action::CountDown(i),
    }
}

fn bytes(x: Bytes) -> Action
    ensures { result ≡ bytes_action x }
{
    match x {
        Bytes::Lbt => Action::LoadByte,
        Bytes::Sbt => Action::StoreByte,
        Bytes::Mbt => Action::Move(Element::Byte),
        Bytes::Cbt => Action::Compare(Element::Byte),
    }
}

fn words(x: Words) -> Action
    ensures { result ≡ words_action x }
{
    match x {
        Words::Cmw => Action::Compare(Element::Word),
        Words::Mvw => Action::Move(Element::Word),
    }
}

fn extended(x: Extended) -> Action
    ensures { result ≡ extended_action x }
{
    match x {
        Extended::Cross(c, g, d) => Action::At(cross_way(c, g, d), Operand::Next),
        Extended::Transfer(t, g, i) => transfer(t, g, i),
        Extended::Indexing(t, i) => indexing(t, i),
        Extended::Arithmetic(t) => Action::At(arithmetic_way(t), Operand::Next),
        Extended::Bytes(t) => bytes(t),
        Extended::Bits(t) => Action::Mask(t),
        Extended::Words(t) => words(t),
    }
}

fn reference(m: MemoryReference, p: u16) -> Action
    ensures { result ≡ action (Instruction.MemoryReference m) p }
{
    Action::At(
        memory_way(m.operation),
        Operand::Made(memory_word(m.indirect, m.current, m.offset, p)),
    )
}

// The action of a word at p. Memory references, the most frequent, are told first.
pub fn action_of(word: u16, p: u16) -> Action
    ensures { result ≡ action (reading word) p }
{
    if 2 <= word / 0o4000 % 16 {
        return reference(memory_reference_of(word), p);
    }
    match read_instruction(word) {
        Instruction::MemoryReference(fields) => reference(fields, p),
        Instruction::ShiftRotate(fields) => Action::ShiftRotate(fields),
        Instruction::AlterSkip(fields) => Action::AlterSkip(fields),
        Instruction::InputOutput(fields) => Action::InputOutput(fields),
        Instruction::LongShift { kind, places } => Action::LongShift(kind, places),
        Instruction::Extended(x) => extended(x),
        Instruction::NotBuilt(w) => Action::NotBuilt(w),
    }
}
