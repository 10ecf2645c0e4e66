// The tree of rows: from the rows of rules to the words of their tree.
#![tactic(auto)]

pub mod write;
