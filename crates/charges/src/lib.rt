// 02, job 6: the list of open charges, and its bookings answered again.
#![tactic(auto)]

pub mod promises;
