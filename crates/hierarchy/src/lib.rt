// What a transition exits and enters, power-on's modes, and which sets are consistent: worked out from the mode tree.
#![tactic(auto)]

pub mod complete;
pub mod consistent;
pub mod transition;
pub mod tree;
pub mod unions;
