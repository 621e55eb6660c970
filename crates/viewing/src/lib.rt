// Floor 3, what the lists and the picture are made from: what a board shows of each point, and the test that tells which points a list has.
#![tactic(auto)]

pub mod shows;
pub mod view;
