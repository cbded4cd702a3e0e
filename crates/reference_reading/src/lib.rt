// Reads the text of a question with everything in memory: lines to pieces, pieces to tables and steps, expressions to postfix code.
// Nothing here recurses, so no text is nested too deep.
// Written apart from the crates language*, which read the same, so that one mistake can't stand in both.
#![tactic(auto)]

mod expressions;
pub mod faults;
mod lexing;
mod lines;
pub mod names;
mod parts;
mod pieces;
pub mod questions;
mod reading;
pub mod spans;
mod statements;

pub use reading::read;
