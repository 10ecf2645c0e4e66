// A value that no row takes, by a search that leaves one row after the other.
#![tactic(auto)]

mod cells;
mod choice;
mod cube;
mod hint;
mod look;
mod node;
pub mod search;
mod steps;
mod taker;
