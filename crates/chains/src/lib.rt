// Floor 2: chains in their slots, and the walk along the links.
#![tactic(auto)]

pub mod group;
