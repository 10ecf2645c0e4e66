// Whether words are a pattern, and whether its ranges are right.
#![tactic(auto)]

pub mod ranges;
pub mod read;
