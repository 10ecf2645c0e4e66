// Bookings: the check as one walk, and the part at a place.
#![tactic(auto)]

pub mod part;
pub mod walk;
