// Reads the text of a question: lines as views of it, tables and steps one after another.
#![tactic(auto)]

mod checks;
pub mod faults;
pub mod lines;
pub mod question;
mod text;

pub use text::{read, reading_fits, reading_words};
