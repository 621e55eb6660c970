// Floor 4, the test of eyes, after the crate's game.rs.
#![tactic(auto)]

pub mod eye;
