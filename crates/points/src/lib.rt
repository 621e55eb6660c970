// Floor 1: the board's points, the colours and the answers' numbers, after the crate's util.rs and stones.rs.
// Every function takes any numbers at all (`colour_at` an array of the length that its type says), and its whole result is what the definitions of `rules` say.
#![tactic(auto)]

pub mod answers;
pub mod coord;
pub mod flags;
pub mod sizes;
pub mod stones;
