// Floor 3, the state: a board with its chain table, after the crate's goban.rs, and the judge that tells a true board from any other.
#![tactic(auto)]

pub mod goban;
pub mod judge;
pub mod slot;
