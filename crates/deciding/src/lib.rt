// The call decide: the answer of the rules in force to a booking, directly from the table.
#![tactic(auto)]

pub mod decide;
mod rules;
