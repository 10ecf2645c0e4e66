// A pattern by itself: refusals 7, 18 and 8 to 10, and its weight.
#![tactic(auto)]

pub mod admit;
