// A table moved one place up over itself. Each element is read after the one before it was stored, so
// that every place takes the first element (C12 at other lengths): the expected values are the first
// element in each place of both ranges, the element after them as it was, A and B past their ranges,
// P three on. stdout has `ok` in each line.
ghost use Rattle.std.specs.Prelude.{◌≤◌, ◌+◌};

use crate::state::{Memory, plain_pages, set_program};
use acts::record::Registers;
use acts::replies::Stepped;
use std::{array, io};

const FIRST: u16 = 1000;

// The words from a place on count up from FIRST.
fn table(from: u16, words: usize) -> Memory {
    let mut memory = [0; 3072];
    let places = memory.iter_mut().skip(usize::from(from)).take(words);
    for (word, value) in places.zip(FIRST..=u16::MAX) {
        *word = value;
    }
    memory
}

// n elements from the place `from` on, moved to the place after it.
fn moved(code: u16, from: u16, n: u8, memory: &mut Memory) -> Stepped {
    let mut pages = plain_pages();
    set_program(memory, [code, 0o10, 0]);
    memory[0o10] = u16::from(n);
    let registers = Registers {
        a: from,
        b: from.wrapping_add(1),
        ..Registers::fresh()
    };
    machine::step::step(registers, &mut pages, memory)
}

// How much of what is left beside memory isn't as expected.
fn wrong_registers(s: Stepped, from: u16, n: u8) -> usize
    ensures { result ≤ 4 }
{
    let end = from.wrapping_add(u16::from(n));
    let r = s.registers;
    let wrong = [
        u32::from(s.reply) != 0,
        r.a != end,
        r.b != end.wrapping_add(1),
        r.p != 5,
    ];
    wrong.iter().filter(|is_wrong| **is_wrong).count()
}

// How many elements from the place `from` on aren't as expected, which is `first` in n + 1 of them, and then `after`.
fn wrong_elements<T: Copy + PartialEq>(memory: &[T], from: u16, n: u8, first: T, after: T) -> usize
    ensures { result ≤ n + 2 }
{
    let n = usize::from(n);
    let places = memory.iter().skip(usize::from(from)).take(n + 2);
    places
        .enumerate()
        .filter(|(i, element)| **element != if *i <= n { first } else { after })
        .count()
}

fn print(rt: &impl Print, label: &str, n: u8, wrong: usize) -> io::Result<()> {
    if wrong == 0 {
        println!(rt; "{label} {n} ok")
    } else {
        println!(rt; "{label} {n} wrong {wrong}")
    }
}

fn words(rt: &impl Print, label: &str, from: u16, n: u8) -> io::Result<()> {
    let mut memory = table(from, 50);
    let s = moved(0o105777, from, n, &mut memory);
    let after = FIRST + u16::from(n) + 1;
    let wrong = wrong_registers(s, from, n) + wrong_elements(&memory, from, n, FIRST, after);
    print(rt, label, n, wrong)
}

// The high byte comes first. The program's own, as what it expects is not to come from the functions that it tries.
fn byte_of(word: u16, is_low: bool) -> u8 {
    let [high, low] = word.to_be_bytes();
    if is_low { low } else { high }
}

fn bytes(rt: &impl Print, from: u16, n: u8) -> io::Result<()> {
    let mut memory = table(from / 2, 20);
    let s = moved(0o105765, from, n, &mut memory);
    let bytes: [u8; 6144] = array::from_fn(|i| byte_of(memory[i / 2], i % 2 == 1));
    let j = u16::from(n) + 1;
    let after = byte_of(FIRST + j / 2, j % 2 == 1);
    let wrong = wrong_registers(s, from, n)
        + wrong_elements(&bytes, from, n, byte_of(FIRST, false), after);
    print(rt, "overlap of bytes", n, wrong)
}

pub(crate) fn run(rt: &impl Print) -> io::Result<()> {
    for n in 1..=40 {
        words(rt, "overlap", 0o100, n)?;
    }
    words(rt, "overlap across a page end", 0o1760, 30)?;
    for n in [1, 2, 3, 16, 33] {
        bytes(rt, 0o200, n)?;
    }
    bytes(rt, 0o3760, 30)
}
