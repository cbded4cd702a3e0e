// What the program `ask` does, but for reading files and printing.
#![tactic(auto)]

pub mod arguments;
mod listing;
pub mod replies;

pub use replies::reply;
