// The first rule of a table that shares a booking with a pattern.
#![tactic(auto)]

pub mod first;
mod lowest;
