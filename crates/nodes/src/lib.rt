// The nodes of a tree.
#![tactic(auto)]

pub mod node;
