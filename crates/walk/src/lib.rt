// The judge's walk over the executions of a transcript whose form is good.
#![tactic(auto)]

mod given;
pub mod hashes;
mod round;

pub use given::Run;
