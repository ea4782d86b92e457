// The hash inputs of one kept execution (document 01, Pair reader): h(e), Γ(1) .. Γ(N), Ω, Π and Ψ in one list of bytes.
#![tactic(auto)]

ghost use Rattle.std.specs.Prelude.{◌≡◌, ◌++◌, ◌+◌, ◌*◌, ◌^◌, ◌%◌, ◌<◌, ◌≤◌, length};
ghost use Rattle.lists.specs.Index.{cat, part};
ghost use Rattle.lists.specs.Tab.{tab};
ghost use Rattle.lists.specs.Bytes.{nums, num};
ghost use Rattle.numbers.specs.Sum.{sum};
ghost use Rattle.streams.specs.Streams.{block};
ghost use Rattle.protocol.specs.Key.{Key};
ghost use Rattle.protocol.specs.Shares.{View, input, Πin, Ψin};
ghost use Rattle.protocol.specs.Transcript.{Parts};
ghost use Rattle.protocol.specs.Judge.{κ, kept_view};
ghost use Rattle.execution.specs.Lists.{alpha_at};
ghost use Rattle.execution.specs.Prepared.{Kept, last_count};
ghost use Rattle.views.specs.Seen.{gamma_at};
ghost use Rattle.outputs.specs.Stated.{Stated};
ghost use Rattle.kept.specs.Kept.{KeptIn};
ghost use Rattle.inputs.specs.Layout.{execution_size, Written};
ghost use Rattle.inputs.specs.Steps.{gamma_in, omega_in};

use execution::{Evaluation, Lists, OpenShares, commit};
use views::answers::alpha_bytes;
use views::parties;

// Π's input: all α(k, i), i running fastest, and block 2e of the seed κ. The sums α(1) .. α(m) go to `sums`.
// `views::answers::pi_of` hashes the same row by row. One function over a trait of sinks is no plainer: a hash and a list would need an
// implementation with laws each, for a loop that already shares `alpha_bytes`. The rows are cut out by place: of what a turn of
// `chunks_exact_mut` wrote nothing is known when the loan ends. The hidden party is N where nobody is, as `OpenShares` has it.
fn pi_input(
    shares: OpenShares,
    execution: usize,
    given: &[u8],
    kappa: &[u8; 16],
    sums: &mut [u32],
    out: &mut [u8],
)
    requires execution_bound { execution < 32 }
    requires given_long { shares.hidden < shares.parties → 4 * shares.m ≤ length given.now }
    requires sums_long { length sums.old ≡ shares.m }
    requires out_long { length out.old ≡ 4 * shares.parties * shares.m + 16 }
    ensures out_after { out.new ≡ input 6 (execution + 1) 0 (cat shares.entry.m (λ k. nums shares.entry.parties (alpha_at shares.entry.modulus.q shares.entry.m shares.entry.hidden given.now shares.entry.work.now k)) ++ block kappa.now (2 * execution)) }
    ensures sums_after { sums.new ≡ tab shares.entry.m (λ k. sum shares.entry.parties (alpha_at shares.entry.modulus.q shares.entry.m shares.entry.hidden given.now shares.entry.work.now k) % shares.entry.modulus.q) }
{
    let width = 4 * shares.parties;
    let (rows, last) = out.split_at_mut(width * shares.m);
    for (k, sum) in sums.iter_mut().enumerate() {
        *sum = alpha_bytes(shares, k, given, &mut rows[width * k..width * k + width]);
    }
    last.copy_from_slice(&streams::block_of(kappa, 2 * execution as u64));
}

// Ψ's input: the outputs o(1) .. o(N), in a list of fixed size as there is no heap, and block 2e + 1 of the seed κ.
fn psi_input(
    evaluation: Evaluation,
    execution: usize,
    given: &[u8],
    kappa: &[u8; 16],
    seed: &[u8; 16],
    sums: &[u32],
    out: &mut [u8],
)
    requires execution_bound { execution < 32 }
    requires given_long { 4 * evaluation.m + 4 ≤ length given.now }
    requires sums_long { evaluation.m ≤ length sums.now }
    requires out_long { length out.old ≡ 4 * evaluation.parties + 16 }
    ensures { (K : Key) (v : View) → Stated evaluation.entry.modulus.q evaluation.entry.n evaluation.entry.m evaluation.entry.parties evaluation.entry.hidden execution (num given.now evaluation.entry.m) evaluation.entry.entries.now sums.now evaluation.entry.work.now K v
        → out.new ≡ Ψin K v kappa.now seed.now }
{
    let shown = bytes4::le32(given, evaluation.m);
    let mut outs = [0; 32];
    let outs = &mut outs[..evaluation.parties];
    outputs::outputs(evaluation, execution, seed, shown, sums, outs);
    commit::put_with_block(outs, kappa, 2 * execution as u64 + 1, out);
}

// The hash inputs of a kept execution whose seeds and shares stand in the lists. `kept` hashes the same and keeps no list, so the walk over
// the five is written for each. The sums stand in a list of fixed size, as there is no heap.
pub fn write(
    evaluation: Evaluation,
    depth: usize,
    execution: usize,
    reply: &[u8],
    kappa: &[u8; 16],
    seed: &[u8; 16],
    leaves: &[u8],
    out: &mut [u8],
)
    requires execution_bound { execution < 32 }
    requires depth_value { 2 ^ depth ≡ evaluation.parties }
    requires reply_long { length reply.now ≡ 16 * depth + 32 + 4 * (evaluation.m + 1 + last_count evaluation.m evaluation.parties evaluation.hidden) }
    requires leaves_long { length leaves.now ≡ 16 * evaluation.parties }
    requires kept { Kept evaluation.modulus.q evaluation.m evaluation.parties depth evaluation.hidden reply.now leaves.now evaluation.work.now }
    requires out_long { length out.old ≡ execution_size evaluation.m evaluation.parties }
    ensures written { (K : Key) (P : Parts) → KeptIn evaluation.entry.modulus.q evaluation.entry.n evaluation.entry.m evaluation.entry.parties depth evaluation.entry.hidden execution reply.now kappa.now seed.now evaluation.entry.entries.now K P → Written K (kept_view K P execution) (κ K P) P.p4 out.new }
    ensures out_len_unchanged { length out.new ≡ length out.old }
    ensures out_after { (K : Key) (P : Parts) → KeptIn evaluation.entry.modulus.q evaluation.entry.n evaluation.entry.m evaluation.entry.parties depth evaluation.entry.hidden execution reply.now kappa.now seed.now evaluation.entry.entries.now K P
        → out.new ≡ (input 2 (execution + 1) 0 (cat evaluation.entry.parties (gamma_at evaluation.entry.m evaluation.entry.parties evaluation.entry.hidden execution (part reply.now (16 * depth) 32) leaves.now evaluation.entry.work.now)) ++ cat evaluation.entry.parties (gamma_in evaluation.entry.m evaluation.entry.parties execution leaves.now evaluation.entry.work.now)) ++ (omega_in evaluation.entry.m evaluation.entry.parties execution leaves.now evaluation.entry.work.now ++ (Πin K (kept_view K P execution) kappa.now ++ Ψin K (kept_view K P execution) kappa.now seed.now)) }
{
    let Evaluation {
        modulus,
        m,
        parties,
        hidden,
        work,
        ..
    } = evaluation;
    let numbers = 16 * depth + 32;
    let given = &reply[numbers..];
    let lists = Lists {
        m,
        parties,
        leaves,
        work,
    };
    let shares = OpenShares {
        modulus,
        m,
        parties,
        hidden,
        work,
    };
    let (h, rest) = out.split_at_mut(32 * parties);
    parties::h_input(lists, hidden, execution, &reply[16 * depth..numbers], h);
    let (gammas, rest) = rest.split_at_mut(32 * parties + 4 * m);
    inputs::gamma_inputs(lists, execution, gammas);
    let (omega, rest) = rest.split_at_mut(4 * m + 16);
    parties::omega_input(lists, execution, omega);
    let mut sums = [0; 128];
    let sums = &mut sums[..m];
    let (pi, psi) = rest.split_at_mut(4 * parties * m + 16);
    pi_input(shares, execution, given, kappa, sums, pi);
    psi_input(evaluation, execution, given, kappa, seed, sums, psi);
}
