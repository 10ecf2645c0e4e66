// The weight of patterns.
#![tactic(auto)]

pub mod weight;
