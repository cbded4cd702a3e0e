// Answers questions with everything in memory, as simply as can be: a second opinion on what the engine answers.
#![tactic(auto)]

pub mod answering;
mod evaluating;
mod keyed;
mod steps;
pub mod tables;

pub use answering::ask;
