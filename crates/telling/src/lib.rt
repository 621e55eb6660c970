// Floor 5, the desk: a reply that is a number.
#![tactic(auto)]

pub mod calls;
