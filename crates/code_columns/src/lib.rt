// The columns that an expression names, by its code, and its code over a table that has only some columns.
#![tactic(auto)]

pub mod named;
pub mod project;
