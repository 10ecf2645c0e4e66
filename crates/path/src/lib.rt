// The rows of rules on a path of a tree: where their words stand.
#![tactic(auto)]

pub mod rows;
