// The hashes of one execution, as whoever holds its lists computes them: h(e), Ω, Π and Ψ.
#![tactic(auto)]

pub mod answers;
pub mod opened;
pub mod outputs;
pub mod parties;
