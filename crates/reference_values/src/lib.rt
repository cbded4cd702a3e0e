// Values, their types, and what operators make of them: written apart from crate `values`, which has the same, so that
// one mistake can't stand in both.
#![tactic(auto)]

pub mod kinds;
pub mod values;
