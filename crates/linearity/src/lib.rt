// Whether patterns are linear.
#![tactic(auto)]

pub mod linear;
