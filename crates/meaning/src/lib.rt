// Document 01 as definitions: specs/ is the meaning, proofs/ its laws and theorems. The code has the refusals, by name.
#![tactic(auto)]

pub mod refusal;
