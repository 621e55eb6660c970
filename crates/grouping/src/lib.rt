// Floor 3, what is asked of the chain at a point, after the crate's group.rs. Each query judges the board first.
#![tactic(auto)]

pub mod group;
