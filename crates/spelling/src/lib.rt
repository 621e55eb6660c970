// Floor 5, the words of a line and the numbers that they write.
#![tactic(auto)]

pub mod number;
pub mod words;
