// Floor 2, liberty sets, after the first part of the crate's group.rs.
#![tactic(auto)]

pub mod liberties;
