// Checking and decoding a signature.
#![tactic(auto)]

pub mod decode;
