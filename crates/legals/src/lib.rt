// Floor 4, the list of the legal points, after the crate's game.rs.
#![tactic(auto)]

pub mod list;
