// Floor 5, the desk: one line in, what it does to the game, and its whole reply.
#![tactic(auto)]

pub mod desk;
