// The outputs o(i) of the parties of one execution, from the key's entries, the verifier's seed and the shares.
#![tactic(auto)]

ghost use Rattle.std.specs.Prelude.{◌≡◌, ◌++◌, ◌+◌, ◌*◌, ◌<◌, ◌≤◌, length, drop};
ghost use Rattle.lists.specs.Tab.{tab, Filling};
ghost use Rattle.numbers.specs.Output.{weight_of, base_of};
ghost use Rattle.numbers.specs.Residue.{Residue};
ghost use Rattle.streams.specs.Streams.{number};
ghost use Rattle.outputs.specs.Steps.{at, cell, target, first_block};
ghost use Rattle.outputs.specs.Stated.{output_at};

mod columns;
mod halves;

use columns::Columns;
use execution::{Evaluation, OpenShares, fill};
use halves::Halves;
use numbers::Modulus;

// The n + m coefficients of an execution, from the verifier's seed. Here and below a list may be longer than what is put in front of it: an
// exact length would ask more of callers.
pub fn coefficients(
    modulus: Modulus,
    n: usize,
    m: usize,
    execution: usize,
    seed: &[u8; 16],
    out: &mut [u32],
)
    requires n_bound { n ≤ 32 }
    requires m_bound { m ≤ 128 }
    requires execution_bound { execution < 32 }
    requires out_long { n + m ≤ length out.old }
    ensures { out.new ≡ tab (n + m) (number modulus.q seed.now (first_block n m execution)) ++ drop (n + m) out.old }
{
    let count = n + m;
    let from = execution * ((count + 1) / 2);
    streams::fill(seed, from as u64, modulus, &mut out[..count]);
}

// Minus the sum over l of β(l) A(l, k).
fn weight(evaluation: Evaluation, k: usize, betas: &[u32]) -> u32
    requires k_lt_m { k < evaluation.m }
    requires betas_long { length betas.now ≡ evaluation.n }
    ensures { Residue evaluation.entry.modulus.q (weight_of evaluation.entry.modulus.q evaluation.entry.n (at betas.now) (cell evaluation.entry.m evaluation.entry.entries.now) k) result }
{
    let mut sum = Halves { lo: 0, hi: 0 };
    for (l, &beta) in betas.iter().enumerate() {
        let a = evaluation.entries[l * evaluation.m + k];
        sum.add(u64::from(beta) * u64::from(a));
    }
    let total = sum.joined(evaluation.modulus, 0);
    evaluation.modulus.sub(0, total)
}

// The weight of each column.
fn weights(evaluation: Evaluation, betas: &[u32], out: &mut [u32])
    requires betas_long { length betas.now ≡ evaluation.n }
    requires out_long { length out.old ≡ evaluation.m }
    ensures { Filling evaluation.entry.m out.new evaluation.entry.m (weight_of evaluation.entry.modulus.q evaluation.entry.n (at betas.now) (cell evaluation.entry.m evaluation.entry.entries.now)) }
{
    fill(out, |k| weight(evaluation, k, betas));
}

// The sum over l of β(l) t(l)/N.
fn base(evaluation: Evaluation, betas: &[u32]) -> u32
    requires { length betas.now ≡ evaluation.n }
    ensures { Residue evaluation.entry.modulus.q (base_of evaluation.entry.modulus.q evaluation.entry.parties evaluation.entry.n (at betas.now) (target evaluation.entry.n evaluation.entry.m evaluation.entry.entries.now)) result }
{
    let modulus = evaluation.modulus;
    let first = evaluation.n * evaluation.m;
    let inverse = modulus.inverse_of(evaluation.parties as u32);
    let mut acc: u32 = 0;
    for (l, &beta) in betas.iter().enumerate() {
        let t = modulus.mul(evaluation.entries[first + l], inverse);
        acc = modulus.mul_add(acc, beta, t);
    }
    acc
}

// Document 01, Shares and messages: o(1) .. o(N) of an execution. The hidden party's o is given, and counts for nothing where nobody is
// hidden. The coefficients and weights stand in lists of fixed size, as there is no heap.
pub fn outputs(
    evaluation: Evaluation,
    execution: usize,
    seed: &[u8; 16],
    given: u32,
    alphas: &[u32],
    out: &mut [u32],
)
    requires execution_bound { execution < 32 }
    requires alphas_long { evaluation.m ≤ length alphas.now }
    requires out_long { evaluation.parties ≤ length out.old }
    ensures { out.new ≡ tab evaluation.entry.parties (output_at evaluation.entry.modulus.q evaluation.entry.n evaluation.entry.m evaluation.entry.parties evaluation.entry.hidden execution given seed.now evaluation.entry.entries.now alphas.now evaluation.entry.work.now) ++ drop evaluation.entry.parties out.old }
{
    let Evaluation {
        modulus,
        n,
        m,
        parties,
        hidden,
        work,
        ..
    } = evaluation;
    let mut cs = [0; 160];
    let cs = &mut cs[..n + m];
    coefficients(modulus, n, m, execution, seed, cs);
    let betas = &cs[..n];
    let mut ws = [0; 128];
    let ws = &mut ws[..m];
    weights(evaluation, betas, ws);
    let columns = Columns {
        shares: OpenShares {
            modulus,
            m,
            parties,
            hidden,
            work,
        },
        given,
        base: base(evaluation, betas),
        weights: ws,
        gammas: &cs[n..],
        alphas: &alphas[..m],
    };
    columns.outputs(&mut out[..parties]);
}
