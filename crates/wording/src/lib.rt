// Floor 5, the text of a reply: points.
#![tactic(auto)]

pub mod replies;
