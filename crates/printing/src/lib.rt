// What the text program prints, as bytes in a lent space.
#![tactic(auto)]

mod pairs;
pub mod print;
pub mod put;
