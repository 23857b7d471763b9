// Sets of small numbers as words: modes in a u32, transitions in a u64. The contracts cite specs/Sets.antt, where membership is defined.
#![tactic(auto)]

mod modes;
pub mod set;
pub mod transitions;
