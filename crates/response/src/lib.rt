// What the prover answers of a kept execution: its outputs, and its reply in part 7.
#![tactic(auto)]

pub mod dealt;
pub mod reply;
