// Statements of a line as views of it: steps, tables, and the lists in them.
#![tactic(auto)]

pub mod items;
pub mod lists;
pub mod steps;
pub mod views;
