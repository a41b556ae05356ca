// A vector's line: the reply, for a run ` after ` and its count, the registers P A B X Y E O WMAP IMAP
// violation interrupt trap lights, and what has changed in memory and in the page registers.
use acts::record::Registers;
use octal::{Bit, Octal};
use std::{fmt, io};

#[derive(Clone, Copy)]
pub(crate) struct Listed(pub(crate) Registers);

impl fmt::Display for Listed {
    fn fmt<W: fmt::Write>(&self, f: &mut fmt::Formatter<W>) -> fmt::Result {
        let r = self.0;
        for word in [r.p, r.a, r.b, r.x, r.y] {
            write!(f, " {}", Octal(word))?;
        }
        write!(f, " {} {}", Bit(r.e), Bit(r.o))?;
        for word in [
            r.wmap,
            r.imap,
            r.violation,
            r.interrupt,
            r.trap,
            u16::from(r.lights),
        ] {
            write!(f, " {}", Octal(word))?;
        }
        Ok(())
    }
}

// The words that are not what they were, by their places.
pub(crate) fn print_changes(
    rt: &impl Print,
    label: &str,
    words: &[u16],
    before: &[u16],
) -> io::Result<()> {
    for (place, (word, was)) in (0..=u16::MAX).zip(words.iter().zip(before)) {
        if word != was {
            print!(rt; "{label}{}={}", Octal(place), Octal(*word))?;
        }
    }
    Ok(())
}
