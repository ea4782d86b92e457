// The calls as Rust has them: the judge, the prover's messages as the length that was written, and the pair reader's finding, or why
// not. Those over lent lists are the functions of the crates below; those here have work lists of their own. Crate `badge_c` gives all
// of them to C. Their parameters are those of the C calls. Work lists have the largest size, since there is no heap.
#![tactic(auto)]

pub mod messages;
pub mod pairs;

ghost use Rattle.std.specs.Prelude.{◌≡◌};
ghost use Rattle.refusals.specs.Refused.{verdict_of};
ghost use Rattle.protocol.specs.Judge.{judge};

use refusals::Refusal;

// The first number of document 01's table that applies to a key and a transcript, if any. Both work lists are its own.
pub fn badge_judge(key: &[u8], run: &[u8]) -> Result<(), Refusal>
    ensures { verdict_of result ≡ judge key.now run.now }
{
    let mut entries = [0u32; 4128];
    let mut work = [0u32; 16384];
    judge::run::judge(key, run, &mut entries, &mut work)
}
