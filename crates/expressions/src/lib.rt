// The values of expressions on rows, and their types, by their postfix code.
#![tactic(auto)]

mod algebra;
pub mod evaluate;
mod running;
pub mod typing;
