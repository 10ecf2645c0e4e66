// A booking that two patterns share, as words.
#![tactic(auto)]

mod fill;
pub mod lists;
mod pair;
pub mod promises;
