// Floor 4, what a game shows of its board, after the crate's game.rs.
#![tactic(auto)]

pub mod shown;
