// Floor 1: the numbers of a board's points, after the crate's util.rs. Every function takes any numbers at all, and its whole result is
// what the definitions of `rules` say.
#![tactic(auto)]

pub mod coord;
