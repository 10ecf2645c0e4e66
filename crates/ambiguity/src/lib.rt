// Whether a pattern is ambiguous (refusal 10).
#![tactic(auto)]

pub mod ambiguous;
mod both;
