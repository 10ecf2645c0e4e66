// Sets of rows.
#![tactic(auto)]

pub mod set;
