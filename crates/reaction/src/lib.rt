// What is triggered, a round, a tick: on words, by the plan of the sheet.
#![tactic(auto)]

pub mod alternatives;
pub mod plan;
pub mod terms;
pub mod tick;
pub mod why;
