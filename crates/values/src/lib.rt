// Values, truths and operators, each proved to be what the definitions say.
#![tactic(auto)]

pub mod cells;
pub mod number;
pub mod truth;
pub mod types;
pub mod value;
pub mod word;
