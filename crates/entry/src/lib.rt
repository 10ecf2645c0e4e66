// A rule's entry into a sound table: refusals 4 to 12, and the rule stored.
#![tactic(auto)]

mod check;
mod settle;
pub mod sound;
