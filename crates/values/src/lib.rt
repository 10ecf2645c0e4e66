// Values under rows: the shortest that a row takes, and whether a row takes one.
#![tactic(auto)]

mod choice;
pub mod promises;
pub mod shortest;
mod sizes;
pub mod takes;
