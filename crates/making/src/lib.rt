// Floor 4, whole boards: a new one, and one from given colours.
#![tactic(auto)]

pub mod make;
