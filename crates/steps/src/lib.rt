// Floor 3, the steps of laying a stone: what is put, joined and removed, after the crate's goban.rs.
#![tactic(auto)]

pub mod join;
pub mod put;
pub mod remove;
