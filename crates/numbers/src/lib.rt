// The numbers of a line: bytes up to a separator, keys, numbers and lists of them.
#![tactic(auto)]

pub mod bytes;
pub mod list;
pub mod number;
