// Refusals in words: where a text goes wrong, and what could be done about it.
#![tactic(auto)]

mod reading;

pub use reading::reading_message;
