// The format over the whole text (17), and how the lines stand in it.
#![tactic(auto)]

pub mod promises;
pub mod whole;
