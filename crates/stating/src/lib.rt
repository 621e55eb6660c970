// Floor 5, the text of a reply: the state of a game.
#![tactic(auto)]

pub mod state;
