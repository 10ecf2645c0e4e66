// 02, job 5: the log of a day and its report.
#![tactic(auto)]

pub mod promises;
