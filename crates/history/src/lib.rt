// Floor 3, the history: a board's record, and the records of boards in lent bytes, in place of the crate's `IndexSet<Goban>`.
#![tactic(auto)]

pub mod lent;
pub mod packing;
