// Message 7: the seed κ, and the reply of each kept execution.
#![tactic(auto)]

ghost use Rattle.std.specs.Prelude.{◌≡◌, ◌+◌, ◌*◌, ◌≤◌, length};
ghost use Rattle.protocol.specs.Key.{key_of};
ghost use Rattle.protocol.specs.Prover.{checks7, message7, verdict7, output};
ghost use Rattle.prover.specs.Answers.{answer_of, said};
ghost use Rattle.message_7.specs.Parts.{replies_length, Hides, RepliesAre};

use execution::Statement;
use forms::is_opened;
use key::Numbers;
use prover::{Call, Given, Materials, checks};
use refusals::Refusal;
use response::reply;
use transcript::{hidden_at, replies_length, reply_size};

// The replies of the kept executions. Its turn is another than those of messages 3 and 5: one walk for all would take the turn as a closure
// that changes lists and hash, and its clauses would be the loop's invariant again. `entries` is read and `work` is written, so they are
// lent apart.
fn replies(
    materials: Materials,
    seed: &[u8; 16],
    hidden: &[u8],
    entries: &[u32],
    work: &mut [u32],
    out: &mut [u8],
)
    requires hides { Hides materials.numbers materials.given.e.now hidden.now }
    requires entries_long { materials.numbers.n * (materials.numbers.m + 1) ≤ length entries.now }
    requires work_long { 3 * materials.numbers.m * materials.numbers.parties ≤ length work.old }
    requires out_long { length out.old ≡ replies_length materials.numbers materials.numbers.depth materials.given.e.now hidden.now materials.numbers.executions }
    ensures { RepliesAre materials.entry.numbers materials.entry.given.seeds.now materials.entry.given.secret.now materials.entry.given.e.now seed.now hidden.now entries.now out.new }
{
    let k = materials.numbers;
    let Numbers {
        modulus,
        n,
        m,
        parties,
        depth,
        executions,
        ..
    } = k;
    let statement = Statement {
        modulus,
        n,
        m,
        parties,
        depth,
        entries,
    };
    // No heap: room for the seeds of the most parties.
    let mut leaves = [0; 512];
    let size = 16 * parties;
    let mut at = 0;
    // Tried as a loop over `(0..executions).filter(..).enumerate()`: the proof did not close, since the chain does not tell how many opened
    // executions lie before the one that it yields.
    let mut kept = 0usize;
    let e = materials.given.e;
    for x in (0..executions).filter(|&x| !is_opened(e, x)) {
        let h = hidden_at(hidden, kept);
        let end = at + reply_size(k, h);
        reply::dealt_reply(
            statement,
            x,
            h - 1,
            prover::master(materials.given.seeds, x),
            materials.given.secret,
            seed,
            &mut leaves[..size],
            work,
            &mut out[at..end],
        );
        at = end;
        kept += 1;
    }
}

// The inputs of message 7. Nothing compares or prints them.
#[derive(Clone, Copy)]
struct Inputs<'a> {
    given: Given<'a>,
    seed: &'a [u8],
    hidden: &'a [u8],
}

impl Call for Inputs<'_> {
    ghost checks = { λ call K. checks7 K call.given.seeds.now call.given.secret.now call.given.e.now call.given.kappa.now call.seed.now call.hidden.now };

    ghost message = { λ call K. message7 K call.given.seeds.now call.given.secret.now call.given.e.now call.given.kappa.now call.seed.now call.hidden.now };

    fn check(self, key: &[u8], k: Numbers) -> Result<(), Refusal> {
        checks::inputs_7(key, k, self.given, self.seed, self.hidden)
    }

    fn size(self, k: Numbers) -> usize {
        replies_length(k, self.given.e, self.hidden)
    }

    fn write(self, key: &[u8], k: Numbers, entries: &mut [u32], work: &mut [u32], out: &mut [u8]) {
        let materials = Materials {
            numbers: k,
            given: self.given,
        };
        let seed = self.seed.try_into().unwrap();
        key::entries(key, entries);
        let (front, back) = out.split_at_mut(16);
        front.copy_from_slice(self.given.kappa);
        replies(materials, seed, self.hidden, entries, work, back);
    }
}

// Message 7 into the output from a place on, or why not. The parameters are those of the call in C, which hands them on one by one: as a
// struct each of the two callers would put it together.
#[tactic(auto, unfolding(protocol::specs::Prover::verdict7))]
pub fn message_7(
    key: &[u8],
    seeds: &[u8],
    secret: &[u8],
    e: &[u8],
    kappa: &[u8],
    seed: &[u8],
    hidden: &[u8],
    out: &mut [u8],
    place: usize,
    entries: &mut [u32],
    work: &mut [u32],
) -> Result<usize, Refusal>
    ensures value { said result ≡ answer_of (verdict7 key.now seeds.now secret.now e.now kappa.now seed.now hidden.now (length out.old) place (length work.old) (length entries.old)) (message7 (key_of key.now) seeds.now secret.now e.now kappa.now seed.now hidden.now) }
    ensures out_after { out.new ≡ output (verdict7 key.now seeds.now secret.now e.now kappa.now seed.now hidden.now (length out.old) place (length work.old) (length entries.old)) (message7 (key_of key.now) seeds.now secret.now e.now kappa.now seed.now hidden.now) place out.old }
{
    let given = Given {
        seeds,
        secret,
        e,
        kappa,
    };
    let inputs = Inputs {
        given,
        seed,
        hidden,
    };
    prover::answer(key, inputs, out, place, entries, work)
}
