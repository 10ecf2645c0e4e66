// What the programs share: bytes and words read, and lines printed.
#![tactic(auto)]

pub mod file;
pub mod print;
