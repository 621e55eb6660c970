// Floor 3, what is asked of a whole board: numbers, after the crate's goban.rs. Each query judges the board first.
#![tactic(auto)]

pub mod goban;
