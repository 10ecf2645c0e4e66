// Lists of rows: rows behind rows.
#![tactic(auto)]

pub mod grow;
pub mod next;
