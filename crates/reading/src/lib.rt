// Floor 5, the text of a call: one line of bytes is read as a command.
#![tactic(auto)]

pub mod line;
