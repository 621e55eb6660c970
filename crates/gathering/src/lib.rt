// Floor 3, the lists of points that a board is asked for, after the crate's goban.rs.
#![tactic(auto)]

pub mod list;
