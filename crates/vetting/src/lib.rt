// Floor 3, whether a query is answered: the board must be a true one, and a point that is asked for must lie on it.
#![tactic(auto)]

pub mod answers;
