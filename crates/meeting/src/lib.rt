// Which rows meet, every two at once: one descent over the places at which rows have cells.
#![tactic(auto)]

mod classes;
pub mod lists;
mod matrix;
pub mod part;
pub mod promises;
pub mod rows;
mod visit;
