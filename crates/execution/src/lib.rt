// One execution in lent lists: its seeds and shares, and the commitments to them.
#![tactic(auto)]

pub mod commit;
mod places;
pub mod prepare;
pub mod shares;
mod sizes;

pub use places::fill;
pub use sizes::{Dealing, Evaluation, Lists, OpenShares, Sharing, Statement};
