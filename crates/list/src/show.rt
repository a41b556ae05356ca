// Standard input run as an image, and its listing written out.
use crate::line::list_image;
use octal::input::read_full;
use std::io;
use std::io::Input;

// A byte more than 8 pages is asked for, so that a longer input is known by its length.
pub fn list_input(rt: &(impl Input + Print)) -> io::Result<()> {
    let mut bytes = [0u8; 16385];
    let n = read_full(&mut rt.reader(), &mut bytes)?;
    let text = list_image(&bytes[..n]).text();
    rt.write_all(text.as_str().as_bytes())
}
