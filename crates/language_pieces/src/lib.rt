// The pieces of a line: words, signs, numbers and words of data, as parts of it.
#![tactic(auto)]

pub mod bytes;
mod cutting;
pub mod faults;
pub mod literals;
pub mod names;
pub mod reader;
