// Whether two rows share a booking; the least value under an allowed constructor.
#![tactic(auto)]

pub mod least;
pub mod pair;
pub mod promises;
