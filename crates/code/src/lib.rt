// Expressions as postfix code in lent words.
#![tactic(auto)]

pub mod code;
pub mod instruction;
pub mod instructions;
pub mod layout;
pub mod operators;
pub mod room;
