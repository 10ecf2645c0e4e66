// The text program: from the bytes of a text to the bytes that it prints.
#![tactic(auto)]

pub mod answer;
mod rules;
