// Floor 5, the desk: what was read is done, and told.
#![tactic(auto)]

pub mod act;
