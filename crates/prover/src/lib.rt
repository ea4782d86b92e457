// What the prover's calls answer and refuse (document 01, Shares and messages, level 1).
#![tactic(auto)]

mod call;
pub mod checks;
mod lent;
mod materials;

pub use call::{Call, answer};
pub use lent::Lent;
pub use materials::{Given, Materials, master};
