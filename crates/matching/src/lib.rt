// Patterns against bookings.
#![tactic(auto)]

pub mod places;
pub mod promises;
mod span;
pub mod takes;
