// Sets of at most 64 numbers, and sets of heads.
#![tactic(auto)]

pub mod heads;
pub mod set;
