// The words of a rule table: its layout, where a rule stands, and how rules go in and out.
#![tactic(auto)]

pub mod change;
pub mod find;
pub mod layout;
pub mod promises;
