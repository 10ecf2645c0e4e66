// The call compile: the tree of the rules in force, written in the lent space.
#![tactic(auto)]

pub mod compile;
mod rules;
