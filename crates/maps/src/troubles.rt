// What can keep an access from its word.

// A page closed to the access; a physical page beyond the lent memory; a chain that never ends; a string that meets A or B.
#[derive(Clone, Copy, Debug, PartialEq, Eq)]
pub enum Trouble {
    Closed,
    Absent(u16),
    Endless,
    InRegisters,
}
