// Floor 3, what changes a board: a stone is laid, after the crate's goban.rs.
#![tactic(auto)]

pub mod lay;
