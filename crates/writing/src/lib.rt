// Floor 5, the text of a reply: bytes, texts and numbers, one behind the other.
#![tactic(auto)]

pub mod figures;
pub mod text;
