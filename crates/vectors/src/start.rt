// What a vector starts from, and what it does.
ghost use Rattle.std.specs.Prelude.{◌≤◌};

use acts::record::Registers;
use std::array;

// Memory, page registers and the record, and how many words of memory and page registers are lent: what is not lent is
// compared afterwards too.
#[derive(Drop)]
pub(crate) struct Start {
    pub(crate) memory: [u16; 32768],
    pub(crate) pages: [u16; 1024],
    pub(crate) registers: Registers,
    pub(crate) lent_words: usize,
    pub(crate) lent_pages: usize,
    ghost words_lent: { lent_words ≤ 32768 },
    ghost pages_lent: { lent_pages ≤ 1024 },
}

#[derive(Clone, Copy)]
pub(crate) enum Command {
    Step,
    Run(u32),
}

impl Start {
    // Memory zero, every map naming page n for page n, the fresh record, 8 pages and all page registers.
    pub(crate) fn fresh() -> Self {
        Start {
            memory: [0; 32768],
            pages: array::from_fn(|i| (i % 32) as u16),
            registers: Registers::fresh(),
            lent_words: 8192,
            lent_pages: 1024,
        }
    }

    // Each word from 1 to n asks for the one before it.
    pub(crate) fn link(&mut self, n: usize) {
        let words = self.memory.iter_mut().skip(1).take(n);
        for (word, address) in words.zip(0..0o100000) {
            *word = 0o100000 | address;
        }
    }
}
