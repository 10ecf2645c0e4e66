// A line by its key, and the lines of a rule.
#![tactic(auto)]

pub mod line;
