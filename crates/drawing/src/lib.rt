// Floor 3, the rendering: the colours as bytes and the picture, into a lent buffer, after the crate's goban.rs.
#![tactic(auto)]

pub mod draw;
