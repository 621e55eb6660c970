// Floor 5, what is wrong with a line, as text.
#![tactic(auto)]

pub mod faults;
