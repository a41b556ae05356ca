// The vectors of standard input, each one step or one run, a line of output for each.
use crate::line::Body;
use crate::show::{Listed, print_changes};
use crate::start::{Command, Start};
use octal::input::read_full;
use std::io;
use std::io::Input;

fn perform(rt: &impl Print, start: &Start, command: Command) -> io::Result<()> {
    let mut pages = start.pages;
    let mut memory = start.memory;
    let lent_pages = &mut pages[..start.lent_pages];
    let lent_words = &mut memory[..start.lent_words];
    match command {
        Command::Step => {
            let s = machine::step::step(start.registers, lent_pages, lent_words);
            print!(rt; " {}{}", u32::from(s.reply), Listed(s.registers))?;
        }
        Command::Run(budget) => {
            let s = machine::run::run(budget, start.registers, lent_pages, lent_words);
            let count = s.count;
            print!(rt;
                " {} after {count}{}",
                u32::from(s.reply),
                Listed(s.registers)
            )?;
        }
    }
    rt.write_all(b" |")?;
    print_changes(rt, " ", &memory, &start.memory)?;
    print_changes(rt, " MAP ", &pages, &start.pages)?;
    rt.write_all(b"\n")
}

// Where in a line its bytes are.
#[derive(Clone, Copy, PartialEq, Eq)]
enum Place {
    Start,
    Name,
    Body,
    Comment,
}

// The line that is being read. Its name is written as it comes; a comment is passed over.
#[derive(Drop)]
struct Line {
    place: Place,
    body: Body,
    start: Start,
}

impl Line {
    fn empty() -> Line {
        Line {
            place: Place::Start,
            body: Body::empty(),
            start: Start::fresh(),
        }
    }

    fn take(&mut self, rt: &impl Print, part: &[u8]) -> io::Result<()> {
        let mut rest = part;
        if self.place == Place::Start {
            match part.first() {
                None => return Ok(()),
                Some(b'#') => self.place = Place::Comment,
                Some(_) => self.place = Place::Name,
            }
        }
        if self.place == Place::Name {
            let Some(colon) = rest.iter().position(|c| *c == b':') else {
                return rt.write_all(rest);
            };
            let (name, body) = rest.split_at(colon + 1);
            rt.write_all(name)?;
            self.place = Place::Body;
            rest = body;
        }
        if self.place == Place::Body {
            for c in rest {
                self.body.take(*c, &mut self.start);
            }
        }
        Ok(())
    }

    fn end(&mut self, rt: &impl Print) -> io::Result<()> {
        match self.place {
            Place::Start | Place::Comment => Ok(()),
            Place::Name => rt.write_all(b": not a vector\n"),
            Place::Body => match self.body.end(&mut self.start) {
                Some(command) => perform(rt, &self.start, command),
                None => rt.write_all(b" not a vector |\n"),
            },
        }
    }
}

// A proved loop has to end, and nothing says that the input does: so it counts its turns down. Of a line that
// is not read to its end only the name is printed.
pub(crate) fn run_all(rt: &(impl Input + Print)) -> io::Result<()> {
    let mut line = Line::empty();
    let mut text = [0; 4096];
    for _ in 0..10000 {
        let n = read_full(&mut rt.reader(), &mut text)?;
        if n == 0 {
            return line.end(rt);
        }
        for (i, part) in text[..n].split(|c| *c == b'\n').enumerate() {
            // what stands before is a whole line
            if i > 0 {
                line.end(rt)?;
                line = Line::empty();
            }
            line.take(rt, part)?;
        }
    }
    Ok(())
}
