// The sheet run, and why a transition stayed put.
#![tactic(auto)]

pub mod sheet_run;
mod state;
pub mod why;
