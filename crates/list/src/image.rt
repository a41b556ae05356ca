// The words of an image, the page registers of a listing, and its run.
ghost use Rattle.std.specs.Prelude.{◌≡◌, ◌+◌, ◌*◌, ◌<◌, get_or};
ghost use Rattle.list.specs.Image.{tabulated, image_word, page_names, is_whole, listed};

use acts::record::Registers;
use acts::replies::{Ran, Reply};
use std::array;

// Every map names page n for page n.
pub fn page_registers() -> [u16; 1024]
    ensures { result ≡ page_names }
{
    array::from_fn(|i| (i % 32) as u16)
}

// A byte past the end is 0.
fn byte_at(bytes: &[u8], i: usize) -> u8
    ensures { result ≡ get_or bytes.now i 0 }
{
    bytes.get(i).copied().unwrap_or(0)
}

// The word at a place, high byte first.
fn word_at(bytes: &[u8], i: usize) -> u16
    requires { i < 8192 }
    ensures { result ≡ image_word bytes.now i }
{
    u16::from_be_bytes([byte_at(bytes, 2 * i), byte_at(bytes, 2 * i + 1)])
}

// The first 8 pages of the words of bytes. A loop: from_fn's promise does not tie its closure to bytes that it captures.
pub fn image_words(bytes: &[u8]) -> [u16; 8192]
    ensures { result ≡ tabulated (image_word bytes.now) 8192 }
{
    let mut memory = [0; 8192];
    for (i, word) in memory.iter_mut().enumerate() {
        *word = word_at(bytes, i);
    }
    memory
}

// Is it 1 to 8 whole pages of 2,048 bytes?
fn is_whole(length: usize) -> bool
    ensures { result ≡ is_whole length }
{
    length % 2048 == 0 && (2048..=16384).contains(&length)
}

// A run of up to 1,000 steps from the fresh record.
#[tactic(auto, using(crate::proofs::Tables::take_tabulated, crate::proofs::Tables::most))]
pub fn run_image(bytes: &[u8]) -> Ran
    ensures { result ≡ listed bytes.now }
{
    let length = bytes.len();
    let fresh = Registers::fresh();
    if is_whole(length) {
        let mut pages = page_registers();
        let mut memory = image_words(bytes);
        let words = length / 2;
        return machine::run::run(1000, fresh, &mut pages, &mut memory[..words]);
    }
    Ran {
        reply: Reply::BadCall,
        count: 0,
        registers: fresh,
    }
}
