// Floor 4, an empty board filled: with given colours, or with a handicap's stones.
#![tactic(auto)]

pub mod handicap;
pub mod place;
