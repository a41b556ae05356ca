// Memory reference: the address word that an instruction makes, and the way it goes.
ghost use Rattle.std.specs.Prelude.{◌≡◌};
ghost use Rattle.rules.specs.Rules.{memory_way, memory_word};

use code::codes::Register;
use code::instructions::Operation;
use effects::ways::{Addressing, Source, Taking, Way};
use maps::pages::Map;
use word::bits::weight_of;

// The operation's way.
pub fn memory_way(operation: Operation) -> Way
    ensures { result ≡ memory_way operation }
{
    match operation {
        Operation::And => Way::Take(Taking::And, Map::Execute, Addressing::Plain),
        Operation::Jsb => Way::JumpSaving,
        Operation::Xor => Way::Take(Taking::Xor, Map::Execute, Addressing::Plain),
        Operation::Jmp => Way::Jump,
        Operation::Ior => Way::Take(Taking::Ior, Map::Execute, Addressing::Plain),
        Operation::Isz => Way::StepAndSkip,
        Operation::Ada => Way::Take(Taking::Add(Register::A), Map::Execute, Addressing::Plain),
        Operation::Adb => Way::Take(Taking::Add(Register::B), Map::Execute, Addressing::Plain),
        Operation::Cpa => Way::Take(
            Taking::Compare(Register::A),
            Map::Execute,
            Addressing::Plain,
        ),
        Operation::Cpb => Way::Take(
            Taking::Compare(Register::B),
            Map::Execute,
            Addressing::Plain,
        ),
        Operation::Lda => Way::Take(Taking::Load(Register::A), Map::Execute, Addressing::Plain),
        Operation::Ldb => Way::Take(Taking::Load(Register::B), Map::Execute, Addressing::Plain),
        Operation::Sta => Way::Put(
            Source::Register(Register::A),
            Map::Execute,
            Addressing::Plain,
        ),
        Operation::Stb => Way::Put(
            Source::Register(Register::B),
            Map::Execute,
            Addressing::Plain,
        ),
    }
}

// The instruction's address as an address word. By its parts: a trap cell's word need not be a memory reference, and lane
// gives bit 15 apart.
pub fn memory_word(indirect: bool, current: bool, offset: u16, p: u16) -> u16
    ensures { result ≡ memory_word indirect current offset p }
{
    if current {
        weight_of(indirect) * 0o100000 + p / 1024 % 32 * 1024 + offset % 1024
    } else {
        weight_of(indirect) * 0o100000 + offset % 1024
    }
}
