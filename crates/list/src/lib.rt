// The listing: an image of 1 to 8 pages is read, run and printed.
#![tactic(auto)]

pub mod image;
pub mod line;
pub mod show;
pub mod text;
