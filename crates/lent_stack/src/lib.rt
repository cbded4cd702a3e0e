// Stacks in lent words: each item lies in one word.
#![tactic(auto)]

mod items;
pub mod packed;
pub mod stack;
