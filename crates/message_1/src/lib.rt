// Message 1: hΓ, the hash of h(1) .. h(M).
#![tactic(auto)]

ghost use Rattle.std.specs.Prelude.{◌≡◌, ◌*◌, ◌≤◌, length};
ghost use Rattle.protocol.specs.Key.{key_of};
ghost use Rattle.protocol.specs.Prover.{checks1, message1, verdict1, output};
ghost use Rattle.prover.specs.Answers.{answer_of, said};
ghost use Rattle.message_1.specs.Parts.{First};

use execution::{Dealing, commit};
use key::Numbers;
use prover::{Call, checks};
use refusals::Refusal;
use views::opened;

// hΓ, over every execution. Messages 3, 5 and 7 walk the opened or the kept ones: one walk for all would take the turn as a closure that
// changes lists and hash, and its clauses would be the loop's invariant again.
fn h_gamma(k: Numbers, seeds: &[u8], work: &mut [u32]) -> [u8; 32]
    requires seeds_long { length seeds.now ≡ 16 * k.executions }
    requires work_long { 3 * k.m * k.parties ≤ length work.old }
    ensures { First k.modulus.q k.m k.parties k.executions k.depth seeds.now result }
{
    let Numbers {
        modulus,
        m,
        parties,
        depth,
        executions,
        ..
    } = k;
    let dealing = Dealing {
        modulus,
        m,
        parties,
        depth,
    };
    // No heap: room for the seeds of the most parties.
    let mut leaves = [0; 512];
    let size = 16 * parties;
    // The kind is document 01's number of this hash, as at `commit::begin`.
    let mut s = commit::begin(1, 0, 0);
    for x in 0..executions {
        s.update(&opened::opened_hash(
            dealing,
            x,
            prover::master(seeds, x),
            &mut leaves[..size],
            work,
        ));
    }
    s.finish()
}

// The master seeds of all executions. Nothing compares or prints them.
#[derive(Clone, Copy)]
struct Seeds<'a> {
    seeds: &'a [u8],
}

impl Call for Seeds<'_> {
    ghost checks = { λ call K. checks1 K call.seeds.now };

    ghost message = { λ call K. message1 K call.seeds.now };

    fn check(self, key: &[u8], k: Numbers) -> Result<(), Refusal> {
        checks::inputs_1(k.executions, self.seeds)
    }

    fn size(self, k: Numbers) -> usize {
        32
    }

    fn write(self, key: &[u8], k: Numbers, entries: &mut [u32], work: &mut [u32], out: &mut [u8]) {
        out.copy_from_slice(&h_gamma(k, self.seeds, work));
    }
}

// Message 1 into the output from a place on, or why not. The parameters are those of the call in C, which hands them on one by one: as a
// struct each of the two callers would put it together.
#[tactic(auto, unfolding(protocol::specs::Prover::verdict1))]
pub fn message_1(
    key: &[u8],
    seeds: &[u8],
    out: &mut [u8],
    place: usize,
    entries: &mut [u32],
    work: &mut [u32],
) -> Result<usize, Refusal>
    ensures value { said result ≡ answer_of (verdict1 key.now seeds.now (length out.old) place (length work.old) (length entries.old)) (message1 (key_of key.now) seeds.now) }
    ensures out_after { out.new ≡ output (verdict1 key.now seeds.now (length out.old) place (length work.old) (length entries.old)) (message1 (key_of key.now) seeds.now) place out.old }
{
    prover::answer(key, Seeds { seeds }, out, place, entries, work)
}
