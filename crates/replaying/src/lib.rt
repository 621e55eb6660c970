// Floor 4, over the stone: a row of moves in order.
#![tactic(auto)]

pub mod entry;
pub mod replay;
