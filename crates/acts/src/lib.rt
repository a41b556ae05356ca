// What rules are carried out with: the register record, replies, and the reading and storing parts of an instruction. The
// record goes by value, so that it can stay in the processor's registers; page registers and memory are lent beside it, as a struct
// of both would add to each promise that page registers stay, which `&[u16]` says by its type.
#![tactic(auto)]

pub mod reads;
pub mod record;
pub mod replies;
pub mod stores;
