// A memory of three pages, its page registers, and a program in it.
use std::array;

pub(crate) type Memory = [u16; 3072];

// Map 0 names page n for page n.
pub(crate) fn plain_pages() -> [u16; 1024] {
    array::from_fn(|i| if i < 32 { i as u16 } else { 0 })
}

// The words at 2, where a fresh record's P is.
pub(crate) fn set_program(memory: &mut Memory, program: [u16; 3]) {
    memory[2..5].copy_from_slice(&program);
}
