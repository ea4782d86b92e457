// Message 5: hψ, the hash of Ψ of each kept execution.
#![tactic(auto)]

ghost use Rattle.std.specs.Prelude.{◌≡◌, ◌+◌, ◌*◌, ◌<◌, ◌≤◌, length};
ghost use Rattle.lists.specs.Index.{part};
ghost use Rattle.protocol.specs.Key.{key_of};
ghost use Rattle.protocol.specs.Prover.{checks5, message5, verdict5, output};
ghost use Rattle.prover.specs.Answers.{answer_of, said};
ghost use Rattle.message_5.specs.Parts.{PsiOf, Fifth};

use execution::{Dealing, Evaluation, commit, prepare};
use forms::is_opened;
use key::Numbers;
use prover::{Call, Given, Materials, checks};
use refusals::Refusal;
use response::dealt;
use views::outputs;

// Ψ of execution x, which is dealt from its master seed and the secret. Message 7 deals and computes the outputs by the
// same two calls, and makes a reply of them; messages 1 and 3 and the judge fill the lists by others.
// Here and in `h_psi` `entries` is read and `work` is written, so they are lent apart.
fn psi(
    materials: Materials,
    x: usize,
    seed: &[u8; 16],
    entries: &[u32],
    work: &mut [u32],
) -> [u8; 32]
    requires x_bound { x < materials.numbers.executions }
    requires entries_long { materials.numbers.n * (materials.numbers.m + 1) ≤ length entries.now }
    requires work_long { 3 * materials.numbers.m * materials.numbers.parties ≤ length work.old }
    ensures psi { PsiOf materials.entry.numbers.modulus.q materials.entry.numbers.n materials.entry.numbers.m materials.entry.numbers.parties materials.entry.numbers.depth x (part materials.entry.given.seeds.now (16 * x) 16) materials.entry.given.secret.now materials.entry.given.kappa.now seed.now entries.now result }
    ensures work_len_unchanged { length work.new ≡ length work.old }
{
    let Numbers {
        modulus,
        n,
        m,
        parties,
        depth,
        ..
    } = materials.numbers;
    let dealing = Dealing {
        modulus,
        m,
        parties,
        depth,
    };
    // No heap: room for the seeds of the most parties.
    let mut room = [0; 512];
    let leaves = &mut room[..16 * parties];
    prepare::deal(
        dealing,
        prover::master(materials.given.seeds, x),
        materials.given.secret,
        leaves,
        work,
    );
    // N for nobody hidden, as in `execution::shares`.
    let evaluation = Evaluation {
        modulus,
        n,
        m,
        parties,
        hidden: parties,
        entries,
        work,
    };
    let kappa = materials.given.kappa.try_into().unwrap();
    // No heap: room for the most parties.
    let mut outs = [0; 32];
    dealt::dealt_outputs(evaluation, x, seed, &mut outs[..parties]);
    outputs::psi_of(x, &outs[..parties], kappa)
}

// hψ. Its turn is another than those of messages 3 and 7: one walk for all would take the turn as a closure that changes lists and hash,
// and its clauses would be the loop's invariant again.
fn h_psi(materials: Materials, seed: &[u8; 16], entries: &[u32], work: &mut [u32]) -> [u8; 32]
    requires entries_long { materials.numbers.n * (materials.numbers.m + 1) ≤ length entries.now }
    requires work_long { 3 * materials.numbers.m * materials.numbers.parties ≤ length work.old }
    ensures { Fifth materials.entry.numbers.modulus.q materials.entry.numbers.n materials.entry.numbers.m materials.entry.numbers.parties materials.entry.numbers.depth materials.entry.numbers.executions materials.entry.given.e.now materials.entry.given.seeds.now materials.entry.given.secret.now materials.entry.given.kappa.now seed.now entries.now result }
{
    // The kind is document 01's number of this hash, as at `commit::begin`.
    let mut s = commit::begin(7, 0, 0);
    let e = materials.given.e;
    for x in (0..materials.numbers.executions).filter(|&x| !is_opened(e, x)) {
        s.update(&psi(materials, x, seed, entries, work));
    }
    s.finish()
}

// The inputs of message 5. Nothing compares or prints them.
#[derive(Clone, Copy)]
struct Inputs<'a> {
    given: Given<'a>,
    seed: &'a [u8],
}

impl Call for Inputs<'_> {
    ghost checks = { λ call K. checks5 K call.given.seeds.now call.given.secret.now call.given.e.now call.given.kappa.now call.seed.now };

    ghost message = { λ call K. message5 K call.given.seeds.now call.given.secret.now call.given.e.now call.given.kappa.now call.seed.now };

    fn check(self, key: &[u8], k: Numbers) -> Result<(), Refusal> {
        checks::inputs_5(key, k, self.given, self.seed)
    }

    fn size(self, k: Numbers) -> usize {
        32
    }

    fn write(self, key: &[u8], k: Numbers, entries: &mut [u32], work: &mut [u32], out: &mut [u8]) {
        let materials = Materials {
            numbers: k,
            given: self.given,
        };
        key::entries(key, entries);
        out.copy_from_slice(&h_psi(materials, self.seed.try_into().unwrap(), entries, work));
    }
}

// Message 5 into the output from a place on, or why not. The parameters are those of the call in C, which hands them on one by one: as a
// struct each of the two callers would put it together.
#[tactic(auto, unfolding(protocol::specs::Prover::verdict5))]
pub fn message_5(
    key: &[u8],
    seeds: &[u8],
    secret: &[u8],
    e: &[u8],
    kappa: &[u8],
    seed: &[u8],
    out: &mut [u8],
    place: usize,
    entries: &mut [u32],
    work: &mut [u32],
) -> Result<usize, Refusal>
    ensures value { said result ≡ answer_of (verdict5 key.now seeds.now secret.now e.now kappa.now seed.now (length out.old) place (length work.old) (length entries.old)) (message5 (key_of key.now) seeds.now secret.now e.now kappa.now seed.now) }
    ensures out_after { out.new ≡ output (verdict5 key.now seeds.now secret.now e.now kappa.now seed.now (length out.old) place (length work.old) (length entries.old)) (message5 (key_of key.now) seeds.now secret.now e.now kappa.now seed.now) place out.old }
{
    let given = Given {
        seeds,
        secret,
        e,
        kappa,
    };
    prover::answer(key, Inputs { given, seed }, out, place, entries, work)
}
