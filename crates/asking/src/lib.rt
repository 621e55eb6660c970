// Floor 4, what is asked of a game's points, after the crate's game.rs.
#![tactic(auto)]

pub mod superko;
pub mod tests;
