// Floor 1, the hash: the table of numbers and the number of a stone, in place of the crate's zobrist.rs.
#![tactic(auto)]

pub mod zobrist;
