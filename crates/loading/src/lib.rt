// The rows of all rules of a table, list behind list.
#![tactic(auto)]

pub mod add;
pub mod load;
