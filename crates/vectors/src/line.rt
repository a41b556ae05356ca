// What a vector's line says behind its colon.
//
//     name: A 14 WMAP 4040 MEM 100 6 7 11 MAP 40 1 STEP
//
// Words are of up to four capital letters, numbers octal; numbers belong to the word before them.
// A B X Y P E O WMAP IMAP and VIOL (violation register), INTR (central interrupt register), TRAP
// (waiting trap), SWIT (switches), LITE (lights) set a register. MEM is followed by a physical address
// and the words from there on, MAP by a page register and the page registers from there on. LEND is
// the number of words of memory lent, REGS that of page registers. LINK n has each word from 1 to n
// ask for the one before it. STEP, or RUN with a budget in decimal, ends the line. What is not named
// is as in a fresh record, with 8 pages of memory, zero, and every map names page n for page n. A line
// that begins with # is a comment.
ghost use Rattle.std.specs.Prelude.{◌≤◌, IfSome};

use crate::start::{Command, Start};
use acts::record::Registers;

#[derive(Clone, Copy)]
enum Register {
    A,
    B,
    X,
    Y,
    P,
    E,
    O,
    Wmap,
    Imap,
    Violation,
    Interrupt,
    Trap,
    Switches,
    Lights,
}

// The largest place that MEM, MAP and LINK take.
const LAST: usize = 0o77777;

// What a number means that comes next. Where a word takes as many as come, an option is None before the first.
#[derive(Clone, Copy)]
enum Next {
    Nothing,
    Register(Register),
    LentWords,
    LentPages,
    Memory(Option<usize>),
    Map(Option<usize>),
    Link,
    MoreLinks,
    Step,
    Run(Option<u32>),
}

fn octal(token: &[u8]) -> Option<u16> {
    u16::from_str_radix(str::from_utf8(token).ok()?, 8).ok()
}

// An octal number that is no more than `most`.
fn octal_up_to(token: &[u8], most: usize) -> Option<usize>
    ensures { IfSome result (λ n. n ≤ most) }
{
    octal(token).map(usize::from).filter(|n| *n <= most)
}

// A budget has up to ten digits, and the number without the last is below 2 ^ 28.
fn budget(token: &[u8]) -> Option<u32> {
    let budget = str::from_utf8(token).ok()?.parse::<u32>().ok();
    budget.filter(|budget| *budget / 10 < 0x10000000)
}

fn bit(value: u16) -> Option<bool> {
    match value {
        0 => Some(false),
        1 => Some(true),
        _ => None,
    }
}

// Puts a word in its place, and says which is the next.
fn put(words: &mut [u16], at: usize, value: u16) -> Option<usize> {
    *words.get_mut(at)? = value;
    Some(at + 1)
}

impl Register {
    fn set(self, r: &mut Registers, value: u16) -> Option<()> {
        match self {
            Register::A => r.a = value,
            Register::B => r.b = value,
            Register::X => r.x = value,
            Register::Y => r.y = value,
            Register::P => r.p = value,
            Register::E => r.e = bit(value)?,
            Register::O => r.o = bit(value)?,
            Register::Wmap => r.wmap = value,
            Register::Imap => r.imap = value,
            Register::Violation => r.violation = value,
            Register::Interrupt => r.interrupt = value,
            Register::Trap => r.trap = value,
            Register::Switches => r.switches = u8::try_from(value).ok()?,
            Register::Lights => r.lights = u8::try_from(value).ok()?,
        }
        Some(())
    }
}

impl Next {
    // What comes after a word. No word may come before the numbers of the one before it, nor behind STEP.
    fn after_word(self, word: &[u8]) -> Option<Next> {
        match self {
            Next::Nothing
            | Next::Memory(Some(_))
            | Next::Map(Some(_))
            | Next::MoreLinks
            | Next::Run(Some(_)) => {}
            _ => return None,
        }
        Some(match word {
            b"A" => Next::Register(Register::A),
            b"B" => Next::Register(Register::B),
            b"X" => Next::Register(Register::X),
            b"Y" => Next::Register(Register::Y),
            b"P" => Next::Register(Register::P),
            b"E" => Next::Register(Register::E),
            b"O" => Next::Register(Register::O),
            b"WMAP" => Next::Register(Register::Wmap),
            b"IMAP" => Next::Register(Register::Imap),
            b"VIOL" => Next::Register(Register::Violation),
            b"INTR" => Next::Register(Register::Interrupt),
            b"TRAP" => Next::Register(Register::Trap),
            b"SWIT" => Next::Register(Register::Switches),
            b"LITE" => Next::Register(Register::Lights),
            b"LEND" => Next::LentWords,
            b"REGS" => Next::LentPages,
            b"MEM" => Next::Memory(None),
            b"MAP" => Next::Map(None),
            b"LINK" => Next::Link,
            b"STEP" => Next::Step,
            b"RUN" => Next::Run(None),
            _ => return None,
        })
    }

    // What comes after a number, which is set.
    fn after_number(self, token: &[u8], start: &mut Start) -> Option<Next> {
        Some(match self {
            Next::Nothing | Next::Step => return None,
            Next::Register(register) => {
                register.set(&mut start.registers, octal(token)?)?;
                Next::Nothing
            }
            Next::LentWords => {
                start.lent_words = octal_up_to(token, 32768)?;
                Next::Nothing
            }
            Next::LentPages => {
                start.lent_pages = octal_up_to(token, 1024)?;
                Next::Nothing
            }
            Next::Memory(None) => Next::Memory(Some(octal_up_to(token, LAST)?)),
            Next::Memory(Some(at)) => Next::Memory(Some(put(
                &mut start.memory,
                at,
                octal(token)?,
            )?)),
            Next::Map(None) => Next::Map(Some(octal_up_to(token, LAST)?)),
            Next::Map(Some(at)) => Next::Map(Some(put(&mut start.pages, at, octal(token)?)?)),
            Next::Link | Next::MoreLinks => {
                start.link(octal_up_to(token, LAST)?);
                Next::MoreLinks
            }
            Next::Run(_) => Next::Run(Some(budget(token)?)),
        })
    }
}

// A word or a number as far as it has been read. Zeros before a number are passed over, and of the rest the first eleven bytes tell
// what it is: no word has more than four letters, and no number more than ten digits. So what is kept of a line is bounded, however
// long the line is; in a buffer that grows with it memory could run out.
#[derive(Clone, Copy)]
struct Token {
    bytes: [u8; 11],
    length: usize,
    ghost within: { length ≤ 11 },
}

impl Token {
    fn empty() -> Token {
        Token {
            bytes: [0; 11],
            length: 0,
        }
    }

    fn text(&self) -> &[u8] {
        &self.bytes[..self.length]
    }

    fn push(&mut self, c: u8) {
        if c.is_ascii_digit() && self.text() == b"0".as_slice() {
            self.length = 0;
        }
        if self.length < 11 {
            self.bytes[self.length] = c;
            self.length += 1;
        }
    }
}

// What stands behind a line's colon, as far as it has been read: None in `next` where it is no vector's.
#[derive(Clone, Copy)]
pub(crate) struct Body {
    token: Token,
    next: Option<Next>,
}

impl Body {
    pub(crate) fn empty() -> Body {
        Body {
            token: Token::empty(),
            next: Some(Next::Nothing),
        }
    }

    // Sets what a byte more says.
    pub(crate) fn take(&mut self, c: u8, start: &mut Start) {
        if c == b' ' {
            self.end_token(start);
        } else {
            self.token.push(c);
        }
    }

    fn end_token(&mut self, start: &mut Start) {
        let token = self.token;
        if let (Some(first), Some(next)) = (token.text().first(), self.next) {
            self.next = match *first {
                b'A'..=b'Z' => next.after_word(token.text()),
                b'0'..=b'9' => next.after_number(token.text(), start),
                _ => None,
            };
        }
        self.token = Token::empty();
    }

    // What is to be done at the line's end, if it is a vector's.
    pub(crate) fn end(&mut self, start: &mut Start) -> Option<Command> {
        self.end_token(start);
        match self.next? {
            Next::Step => Some(Command::Step),
            Next::Run(Some(budget)) => Some(Command::Run(budget)),
            _ => None,
        }
    }
}
