// The products of lists of rows.
#![tactic(auto)]

pub mod product;
