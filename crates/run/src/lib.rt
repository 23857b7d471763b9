// States, counts, and readings and ages during a run, for sheet and table alike.
#![tactic(auto)]

pub mod ages;
pub mod counts;
pub mod deadlines;
pub mod state;
mod sums;
