// A row left at one of its cells: in words, and at which cells it can be left.
#![tactic(auto)]

pub mod frontier;
pub mod promises;
pub mod view;
