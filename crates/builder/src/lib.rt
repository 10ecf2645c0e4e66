// The list of the rows of a pattern.
#![tactic(auto)]

pub mod build;
