// Floor 4, the tests of suicide, ko and capture, after the crate's game.rs.
#![tactic(auto)]

pub mod near;
