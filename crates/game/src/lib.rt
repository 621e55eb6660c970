// Floor 4: the game, after the crate's game.rs: every call, every refusal.
#![tactic(auto)]

pub mod asks;
pub mod calls;
pub mod clock;
pub mod judge;
pub mod state;
