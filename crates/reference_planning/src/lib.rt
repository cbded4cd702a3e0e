// Is a question sound, and what are its steps to do: names are replaced by positions, types are checked.
// Written apart from the engine, its instructions too, so that one mistake can't stand in both.
#![tactic(auto)]

mod binding;
mod checking;
pub mod faults;
mod fitting;
mod planning;
pub mod plans;

pub use planning::plan;
