// The call that enters a rule.
#![tactic(auto)]

pub mod enter;
