// Layer 2: page registers, protection and presence; a word at a logical address; chains; a byte's
// place. Memory and page registers are lent slices of any length. Every function takes all values
// of its types, and its promise is an equation to a definition in specs/.
#![tactic(auto)]

pub mod access;
pub mod bytes;
pub mod chains;
pub mod pages;
pub mod troubles;
