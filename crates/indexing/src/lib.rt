// The rows of all rules of a table, where they stand, in the table of rows that the tree's writer asks for.
#![tactic(auto)]

mod list;
mod one;
pub mod rules;
