// The text of the conformance program: numbers, words, states and runs read, lines written, digests.
#![tactic(auto)]

pub mod digests;
pub mod line;
pub mod text;
