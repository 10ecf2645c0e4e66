// The call that empties a table.
#![tactic(auto)]

pub mod empty;
