// Floor 4, the calls that put stones down, after the crate's `try_play` and `put_handicap`.
#![tactic(auto)]

pub mod count;
pub mod handicap;
pub mod stone;
