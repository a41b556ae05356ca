// What a step replies. The paper's numbers are in specs/Replies.
ghost use Rattle.std.specs.Prelude.{◌≡◌};
ghost use Rattle.acts.specs.Replies.{number};
ghost use Rattle.acts.specs.Acts.{stopped, settled};

use crate::record::Registers;
use maps::troubles::Trouble;

// Why a step is refused. An absent page is told by its number.
#[derive(Clone, Copy, Debug, PartialEq, Eq)]
pub enum Refusal {
    InputOutput,
    Endless,
    Absent(u16),
    InRegisters,
    NotBuilt,
    TrapCell,
}

// Why an instruction was not completed. A bad call is found before any instruction.
#[derive(Clone, Copy, Debug, PartialEq, Eq)]
pub enum Stop {
    Violation,
    Refused(Refusal),
    BadCall,
}

impl From<Trouble> for Stop {
    ghost from_gives = { λ t s. s ≡ stopped t };

    fn from(t: Trouble) -> Stop {
        match t {
            Trouble::Closed => Stop::Violation,
            Trouble::Absent(page) => Stop::Refused(Refusal::Absent(page)),
            Trouble::Endless => Stop::Refused(Refusal::Endless),
            Trouble::InRegisters => Stop::Refused(Refusal::InRegisters),
        }
    }
}

// What hosts are told by its number: completed, or one of the ways to stop.
#[derive(Clone, Copy, Debug, PartialEq, Eq)]
pub enum Reply {
    Completed,
    Violation,
    Refused(Refusal),
    BadCall,
}

// The paper's number of a reply.
impl From<Reply> for u32 {
    ghost from_gives = { λ reply n. n ≡ number reply };

    fn from(reply: Reply) -> u32 {
        match reply {
            Reply::Completed => 0,
            Reply::Violation => 1,
            Reply::Refused(Refusal::InputOutput) => 2,
            Reply::Refused(Refusal::Endless) => 3,
            Reply::Refused(Refusal::Absent(_)) => 4,
            Reply::Refused(Refusal::InRegisters) => 5,
            Reply::Refused(Refusal::NotBuilt) => 6,
            Reply::Refused(Refusal::TrapCell) => 7,
            Reply::BadCall => 8,
        }
    }
}

// The reply with the registers that go with it.
#[derive(Clone, Copy, Debug, PartialEq, Eq)]
pub struct Stepped {
    pub reply: Reply,
    pub registers: Registers,
}

// A run's reply, the number of its steps that replied 0 or 1, and the registers.
#[derive(Clone, Copy, Debug, PartialEq, Eq)]
pub struct Ran {
    pub reply: Reply,
    pub count: u32,
    pub registers: Registers,
}

// What is replied of an instruction that r were given to: a violation interrupts, and a refusal leaves r.
pub fn settle(outcome: Result<Registers, Stop>, r: Registers) -> Stepped
    ensures { result ≡ settled r outcome }
{
    match outcome {
        Ok(s) => Stepped {
            reply: Reply::Completed,
            registers: s,
        },
        Err(Stop::Violation) => Stepped {
            reply: Reply::Violation,
            registers: r.interrupted(),
        },
        Err(Stop::Refused(refusal)) => Stepped {
            reply: Reply::Refused(refusal),
            registers: r,
        },
        Err(Stop::BadCall) => Stepped {
            reply: Reply::BadCall,
            registers: r,
        },
    }
}
