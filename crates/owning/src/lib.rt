// Floor 3, the owners of points: what the judge asks of them one point after another, and of the ring of links that a chain has.
#![tactic(auto)]

pub mod owners;
pub mod ring;
