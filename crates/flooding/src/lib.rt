// Floor 3, the flood of one slot, which the judge makes: the edges of a board, the points seen beside a chain, and the walk by the points that a slot owns.
#![tactic(auto)]

pub mod edges;
pub mod flood;
pub mod seen;
