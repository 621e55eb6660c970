// Floor 4, what a board shows of its points and of what stands beside one, read for the tests.
#![tactic(auto)]

pub mod look;
