// The table run, and what a table says of its timers, noted for several runs.
#![tactic(auto)]

pub mod notes;
mod state;
pub mod table_run;
mod timers;
