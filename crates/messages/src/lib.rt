// Messages for people: what is quoted from a text, and on which line of it something is wrong.
#![tactic(auto)]

pub mod lines;
pub mod quotes;
