// Floor 5, the text of a call: what a line can say, and the words behind its name.
#![tactic(auto)]

pub mod command;
pub mod read;
