// The rules of the game, on paper: this crate has definitions and laws in specs/, and no code.

#![tactic(auto)]
