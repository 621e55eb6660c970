// Floor 3, the lists: the points of a board that answer a question, in a lent buffer.
#![tactic(auto)]

pub mod list;
