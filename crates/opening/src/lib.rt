// Where every call on a table starts: refusals 1 to 3.
#![tactic(auto)]

pub mod begin;
pub mod load;
pub mod open;
