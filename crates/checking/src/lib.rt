// Floor 4, what is asked of a point before a stone is laid: the four tests by the flags, after the crate's game.rs.
#![tactic(auto)]

pub mod check;
pub mod point;
pub mod refusal;
pub mod spot;
pub mod superko;
