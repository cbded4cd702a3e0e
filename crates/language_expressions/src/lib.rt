// Expressions of a line, to postfix code: a loop over marks, with no recursion.
#![tactic(auto)]

mod leaves;
mod machine;
mod marks;
pub mod reading;
mod turns;
