// What holds of every run of calls, on paper: this crate has definitions and laws in specs/, and no code.

#![tactic(auto)]
