// The outputs of an execution that the prover has dealt.

ghost use Rattle.std.specs.Prelude.{◌≡◌, ◌<◌, length};
ghost use Rattle.lists.specs.Tab.{tab};
ghost use Rattle.numbers.specs.Residue.{Residue};
ghost use Rattle.outputs.specs.Stated.{output_at};
ghost use Rattle.response.specs.Held.{alpha_sum};

use execution::shares::column;
use execution::{Evaluation, fill};

// α(k): the sum of all s less the sum of all b.
#[tactic(auto, using(crate::proofs::Laws::alpha_sum_is, numbers::proofs::Inverse::q_positive), unfolding(crate::specs::Held::alpha_sum))]
fn alpha_sum(evaluation: Evaluation, k: usize) -> u32
    requires { k < evaluation.m }
    ensures { Residue evaluation.entry.modulus.q (alpha_sum evaluation.entry.modulus.q evaluation.entry.m evaluation.entry.parties evaluation.entry.work.now k) result }
{
    let Evaluation {
        modulus,
        m,
        parties,
        work,
        ..
    } = evaluation;
    let s = modulus.reduced(column(work, 2 * m + k, 3 * m, parties));
    let b = modulus.reduced(column(work, k, 3 * m, parties));
    modulus.sub(s, b)
}

// o(1) .. o(N) of an execution whose shares stand in the work list, nobody's hidden: the 0 that `outputs` takes for a hidden party's output
// counts for nothing. The sums stand in a list of fixed size, as there is no heap.
pub fn dealt_outputs(evaluation: Evaluation, execution: usize, seed: &[u8; 16], outs: &mut [u32])
    requires nobody_hidden { evaluation.hidden ≡ evaluation.parties }
    requires execution_bound { execution < 32 }
    requires outs_long { length outs.old ≡ evaluation.parties }
    ensures { outs.new ≡ tab evaluation.entry.parties (output_at evaluation.entry.modulus.q evaluation.entry.n evaluation.entry.m evaluation.entry.parties evaluation.entry.parties execution 0 seed.now evaluation.entry.entries.now (tab evaluation.entry.m (alpha_sum evaluation.entry.modulus.q evaluation.entry.m evaluation.entry.parties evaluation.entry.work.now)) evaluation.entry.work.now) }
{
    let mut sums = [0; 128];
    let sums = &mut sums[..evaluation.m];
    fill(sums, |k| alpha_sum(evaluation, k));
    outputs::outputs(evaluation, execution, seed, 0, sums, outs);
}
