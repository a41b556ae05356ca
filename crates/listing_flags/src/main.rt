// The listing of an image that ends with E clear and O set, a count of three digits, and A, B and P of
// different digits, bit 15 of A set. Its words, the others being 0, all octal:
//     2 060100 LDA 100, 3 040101 ADA 101, 4 064102 LDB 102, 5 034103 ISZ 103, 6 024005 JMP 5,
//     7 025234 JMP 1234, 100 045670, 101 055566, 102 076543, 103 177676 (minus 66), 1234 102000 HLT
// The sum is 123456 with overflow and no carry. Steps: 3, then 66 of ISZ and 65 of JMP 5, then JMP 1234.
#![tactic(auto)]

use std::io;

fn main(rt: HostRuntime) -> io::Result<()> {
    list::show::list_input(&rt)
}
