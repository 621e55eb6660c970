// The border for hosts that link the referee: every call under one prefix, thin over the call of the same name and with its promise.
// A slice is lent as a pointer and a length, a struct by value.
#![tactic(auto)]

pub mod asks;
pub mod calls;
pub mod facts;
pub mod goban;
pub mod in_place;
pub mod lists;
