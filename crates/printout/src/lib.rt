// What the bench program answers to the texts on standard input.
#![tactic(auto)]

pub mod answer;
mod print;
pub mod texts;
