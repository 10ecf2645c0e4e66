// 02, job 2: the booking check, which a host steps word by word.
#![tactic(auto)]

pub mod begin;
pub mod end;
pub mod promises;
pub mod state;
pub mod step;
