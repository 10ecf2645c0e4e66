// A row as cells of words, a cursor over its columns, and two rows as one.
#![tactic(auto)]

pub mod cell;
