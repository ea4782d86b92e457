// The reply of a kept execution in part 7: its opened seeds, and what the verifier cannot compute of the hidden party.

ghost use Rattle.std.specs.Prelude.{◌≡◌, ◌+◌, ◌*◌, ◌<◌, ◌≤◌, length};
ghost use Rattle.lists.specs.Bytes.{nums};
ghost use Rattle.protocol.specs.Key.{Key};
ghost use Rattle.protocol.specs.Shares.{View, o};
ghost use Rattle.execution.specs.Lists.{Reduced};
ghost use Rattle.execution.specs.Prepared.{last_count};
ghost use Rattle.response.specs.Held.{Held};
ghost use Rattle.response.specs.Replies.{alpha_share, last_numbers, numbers_of, reply_of, DealtReply};

use crate::dealt;
use bytes4::put32;
use execution::{Dealing, Evaluation, Lists, OpenShares, Statement, fill, prepare};
use views::answers::alpha_open;
use views::parties;

// α(1, i) .. α(m, i), four bytes each. They stand in a list of fixed size first, as there is no heap.
fn put_alphas(shares: OpenShares, i: usize, out: &mut [u8])
    requires i_lt_parties { i < shares.parties }
    requires open { i ≡ shares.hidden → ⊥ }
    requires out_long { length out.old ≡ 4 * shares.m }
    ensures { out.new ≡ nums shares.entry.m (alpha_share shares.entry.modulus.q shares.entry.m shares.entry.work.now i) }
{
    let mut alphas = [0; 128];
    let alphas = &mut alphas[..shares.m];
    fill(alphas, |k| alpha_open(shares, k, i));
    bytes4::put_numbers(alphas, out);
}

// d(1) .. d(m) and s(1) .. s(m) of party N, unless it is hidden: into bytes, where `execution::prepare` takes them from bytes.
#[tactic(auto, using(crate::proofs::Laws::last_none, crate::proofs::Laws::last_some))]
fn put_last(shares: OpenShares, hidden: usize, out: &mut [u8])
    requires hidden_lt_parties { hidden < shares.parties }
    requires out_long { length out.old ≡ 4 * last_count shares.m shares.parties hidden }
    ensures { out.new ≡ last_numbers shares.entry.m shares.entry.parties shares.entry.work.now hidden }
{
    if hidden + 1 == shares.parties {
        return;
    }
    let from = 3 * shares.m * (shares.parties - 1) + shares.m;
    bytes4::put_numbers(&shares.work[from..from + 2 * shares.m], out);
}

// The numbers of a reply: the hidden party's α and o, and party N's d and s.
fn put_numbers(shares: OpenShares, hidden: usize, o: u32, out: &mut [u8])
    requires nobody_hidden { shares.hidden ≡ shares.parties }
    requires hidden_lt_parties { hidden < shares.parties }
    requires out_long { length out.old ≡ 4 * (shares.m + 1 + last_count shares.m shares.parties hidden) }
    ensures { out.new ≡ numbers_of shares.entry.modulus.q shares.entry.m shares.entry.parties shares.entry.work.now hidden o }
{
    let mid = 4 * shares.m;
    put_alphas(shares, hidden, &mut out[..mid]);
    put32(o, &mut out[mid..mid + 4]);
    put_last(shares, hidden, &mut out[mid + 4..]);
}

// o of one party. The outputs stand in a list of fixed size, as there is no heap.
fn output_of(evaluation: Evaluation, execution: usize, party: usize, seed: &[u8; 16]) -> u32
    requires nobody_hidden { evaluation.hidden ≡ evaluation.parties }
    requires execution_bound { execution < 32 }
    requires party_lt_parties { party < evaluation.parties }
    ensures { (K : Key) (v : View) → Held evaluation.entry.modulus.q evaluation.entry.n evaluation.entry.m evaluation.entry.parties execution evaluation.entry.entries.now evaluation.entry.work.now K v → result ≡ o K v seed.now party }
{
    let mut outs = [0; 32];
    dealt::dealt_outputs(evaluation, execution, seed, &mut outs[..evaluation.parties]);
    outs[party]
}

// A reply whose o is given. Nobody is hidden from whoever writes it: `parties`, as at `execution::shares::draw_shares`.
fn write_reply(
    dealing: Dealing,
    execution: usize,
    hidden: usize,
    o: u32,
    master: &[u8; 16],
    leaves: &[u8],
    work: &[u32],
    out: &mut [u8],
)
    requires execution_bound { execution < 32 }
    requires depth_bound { dealing.depth ≤ 5 }
    requires hidden_lt_parties { hidden < dealing.parties }
    requires leaves_long { length leaves.now ≡ 16 * dealing.parties }
    requires work_long { 3 * dealing.m * dealing.parties ≤ length work.now }
    requires reduced { Reduced dealing.modulus.q dealing.m dealing.parties dealing.parties work.now }
    requires out_long { length out.old ≡ 16 * dealing.depth + 32 + 4 * (dealing.m + 1 + last_count dealing.m dealing.parties hidden) }
    ensures { out.new ≡ reply_of dealing.modulus.q dealing.m dealing.parties dealing.depth execution master.now leaves.now work.now hidden o }
{
    let Dealing {
        modulus,
        m,
        parties,
        depth,
    } = dealing;
    let lists = Lists {
        m,
        parties,
        leaves,
        work,
    };
    let shares = OpenShares {
        modulus,
        m,
        parties,
        hidden: parties,
        work,
    };
    let seeds = 16 * depth;
    tree::open_all_but(depth, master, hidden, &mut out[..seeds]);
    let gamma = parties::gamma_open(lists, execution, hidden);
    out[seeds..seeds + 32].copy_from_slice(&gamma);
    put_numbers(shares, hidden, o, &mut out[seeds + 32..]);
}

// The reply of an execution that is dealt from its master seed and the secret, into a list of its length. The seeds and shares go to
// `leaves` and `work`; nobody is hidden there, as in `write_reply`. The seeds, the secret and the lists are lent each by itself, hence nine
// parameters: one struct of them would be made for this one call. Message 5 deals and computes the outputs by the same two calls, and
// hashes them.
pub fn dealt_reply(
    statement: Statement,
    execution: usize,
    hidden: usize,
    master: &[u8; 16],
    secret: &[u8],
    seed: &[u8; 16],
    leaves: &mut [u8],
    work: &mut [u32],
    out: &mut [u8],
)
    requires execution_bound { execution < 32 }
    requires depth_bound { statement.depth ≤ 5 }
    requires hidden_lt_parties { hidden < statement.parties }
    requires secret_long { length secret.now ≡ statement.m }
    requires leaves_long { length leaves.old ≡ 16 * statement.parties }
    requires work_long { 3 * statement.m * statement.parties ≤ length work.old }
    requires out_long { length out.old ≡ 16 * statement.depth + 32 + 4 * (statement.m + 1 + last_count statement.m statement.parties hidden) }
    ensures dealt_reply { DealtReply statement.entry.modulus.q statement.entry.n statement.entry.m statement.entry.parties statement.entry.depth execution hidden master.now secret.now seed.now statement.entry.entries.now out.new }
    ensures leaves_len_unchanged { length leaves.new ≡ length leaves.old }
    ensures work_len_unchanged { length work.new ≡ length work.old }
{
    let dealing = Dealing {
        modulus: statement.modulus,
        m: statement.m,
        parties: statement.parties,
        depth: statement.depth,
    };
    prepare::deal(dealing, master, secret, leaves, work);
    let evaluation = Evaluation {
        modulus: statement.modulus,
        n: statement.n,
        m: statement.m,
        parties: statement.parties,
        hidden: statement.parties,
        entries: statement.entries,
        work,
    };
    let o = output_of(evaluation, execution, hidden, seed);
    write_reply(dealing, execution, hidden, o, master, leaves, work, out);
}
