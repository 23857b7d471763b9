// Blocks and cells by number: the listed sets, a block and the due timers of a cell, its tick, the input sets with one cell, timer words.
#![tactic(auto)]

pub mod alike;
pub mod block;
pub mod due;
pub mod listed;
pub mod tick;
pub mod timer_word;
