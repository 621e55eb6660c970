// Floor 5, what is told of a game to hosts: its facts in numbers alone.
#![tactic(auto)]

pub mod facts;
