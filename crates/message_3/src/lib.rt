// Message 3: the opened executions' master seeds, Ω of each kept execution, and hπ.
#![tactic(auto)]

ghost use Rattle.std.specs.Prelude.{◌≡◌, not, [], ◌+◌, ◌*◌, ◌<◌, ◌≤◌, length};
ghost use Rattle.lists.specs.Index.{cat, pick, part, count};
ghost use Rattle.protocol.specs.Key.{key_of};
ghost use Rattle.protocol.specs.Prover.{opened, checks3, message3, verdict3, output};
ghost use Rattle.prover.specs.Answers.{answer_of, said};
ghost use Rattle.message_3.specs.Parts.{OmegaOf, PiOf, Rest};

use execution::{Dealing, Lists, OpenShares, commit};
use forms::is_opened;
use key::Numbers;
use prover::{Call, Given, Materials, checks};
use refusals::Refusal;
use views::{answers, parties};

// The master seeds of the opened executions. The turns of `rest` and of messages 5 and 7 are others: one walk for all would take the turn
// as a closure that changes lists and hash, and its clauses would be the loop's invariant again.
fn masters(materials: Materials, out: &mut [u8])
    requires { length out.old ≡ 16 * count materials.numbers.executions (opened materials.given.e.now) }
    ensures { out.new ≡ cat materials.entry.numbers.executions (λ x. pick (opened materials.entry.given.e.now x) (part materials.entry.given.seeds.now (16 * x) 16) []) }
{
    let mut at = 0;
    let e = materials.given.e;
    for x in (0..materials.numbers.executions).filter(|&x| is_opened(e, x)) {
        let end = at + 16;
        out[at..end].copy_from_slice(prover::master(materials.given.seeds, x));
        at = end;
    }
}

// Ω and Π of execution x, which is dealt from its master seed and the secret. Messages 1, 5 and 7 and the judge fill the lists by other
// functions and make other hashes of them: alike are the types alone.
fn omega_and_pi(materials: Materials, x: usize, work: &mut [u32]) -> ([u8; 32], [u8; 32])
    requires x_bound { x < materials.numbers.executions }
    requires work_long { 3 * materials.numbers.m * materials.numbers.parties ≤ length work.old }
    ensures omega { OmegaOf materials.entry.numbers.modulus.q materials.entry.numbers.m materials.entry.numbers.parties materials.entry.numbers.depth x (part materials.entry.given.seeds.now (16 * x) 16) materials.entry.given.secret.now result.0 }
    ensures pi { PiOf materials.entry.numbers.modulus.q materials.entry.numbers.m materials.entry.numbers.parties materials.entry.numbers.depth x (part materials.entry.given.seeds.now (16 * x) 16) materials.entry.given.secret.now materials.entry.given.kappa.now result.1 }
    ensures work_len_unchanged { length work.new ≡ length work.old }
{
    let Numbers {
        modulus,
        m,
        parties,
        depth,
        ..
    } = materials.numbers;
    let dealing = Dealing {
        modulus,
        m,
        parties,
        depth,
    };
    // No heap: room for the seeds of the most parties.
    let mut room = [0; 512];
    let leaves = &mut room[..16 * parties];
    masks::deal_masks(
        dealing,
        prover::master(materials.given.seeds, x),
        materials.given.secret,
        leaves,
        work,
    );
    let lists = Lists {
        m,
        parties,
        leaves,
        work,
    };
    // N for nobody hidden, as in `execution::shares`.
    let shares = OpenShares {
        modulus,
        m,
        parties,
        hidden: parties,
        work,
    };
    let kappa = materials.given.kappa.try_into().unwrap();
    // No heap: room for the most columns.
    let mut sums = [0; 128];
    (
        parties::omega_of(lists, x),
        answers::pi_of(shares, x, &[], kappa, &mut sums),
    )
}

// Ω of the kept executions followed by hπ, into a list of that length.
fn rest(materials: Materials, work: &mut [u32], out: &mut [u8])
    requires work_long { 3 * materials.numbers.m * materials.numbers.parties ≤ length work.old }
    requires out_long { length out.old ≡ 32 * count materials.numbers.executions (λ j. not (opened materials.given.e.now j)) + 32 }
    ensures { Rest materials.entry.numbers.modulus.q materials.entry.numbers.m materials.entry.numbers.parties materials.entry.numbers.depth materials.entry.numbers.executions materials.entry.given.e.now materials.entry.given.seeds.now materials.entry.given.secret.now materials.entry.given.kappa.now out.new }
{
    // The kind is document 01's number of this hash, as at `commit::begin`.
    let mut s = commit::begin(5, 0, 0);
    let mut at = 0;
    let e = materials.given.e;
    for x in (0..materials.numbers.executions).filter(|&x| !is_opened(e, x)) {
        let end = at + 32;
        let (omega, pi) = omega_and_pi(materials, x, work);
        out[at..end].copy_from_slice(&omega);
        s.update(&pi);
        at = end;
    }
    out[at..].copy_from_slice(&s.finish());
}

// The inputs of message 3. Nothing compares or prints them.
#[derive(Clone, Copy)]
struct Inputs<'a> {
    given: Given<'a>,
}

impl Call for Inputs<'_> {
    ghost checks = { λ call K. checks3 K call.given.seeds.now call.given.secret.now call.given.e.now call.given.kappa.now };

    ghost message = { λ call K. message3 K call.given.seeds.now call.given.secret.now call.given.e.now call.given.kappa.now };

    fn check(self, key: &[u8], k: Numbers) -> Result<(), Refusal> {
        checks::inputs_3(key, k, self.given)
    }

    fn size(self, k: Numbers) -> usize {
        checks::size_3(k.opened, k.executions)
    }

    fn write(self, key: &[u8], k: Numbers, entries: &mut [u32], work: &mut [u32], out: &mut [u8]) {
        let materials = Materials {
            numbers: k,
            given: self.given,
        };
        let (front, back) = out.split_at_mut(16 * k.opened);
        masters(materials, front);
        rest(materials, work, back);
    }
}

// Message 3 into the output from a place on, or why not. The parameters are those of the call in C, which hands them on one by one: as a
// struct each of the two callers would put it together.
#[tactic(auto, unfolding(protocol::specs::Prover::verdict3))]
pub fn message_3(
    key: &[u8],
    seeds: &[u8],
    secret: &[u8],
    e: &[u8],
    kappa: &[u8],
    out: &mut [u8],
    place: usize,
    entries: &mut [u32],
    work: &mut [u32],
) -> Result<usize, Refusal>
    ensures value { said result ≡ answer_of (verdict3 key.now seeds.now secret.now e.now kappa.now (length out.old) place (length work.old) (length entries.old)) (message3 (key_of key.now) seeds.now secret.now e.now kappa.now) }
    ensures out_after { out.new ≡ output (verdict3 key.now seeds.now secret.now e.now kappa.now (length out.old) place (length work.old) (length entries.old)) (message3 (key_of key.now) seeds.now secret.now e.now kappa.now) place out.old }
{
    let given = Given {
        seeds,
        secret,
        e,
        kappa,
    };
    prover::answer(key, Inputs { given }, out, place, entries, work)
}
