// A call of the prover: its key is read, its inputs and the lent lists are tested, and its message is written.

ghost use Rattle.std.specs.Prelude.{◌≡◌, List, ℕ, ◌+◌, ◌*◌, ◌≤◌, length};
ghost use Rattle.lists.specs.Check.{Check, accepted, first};
ghost use Rattle.refusals.specs.Refused.{verdict_of};
ghost use Rattle.protocol.specs.Key.{Key, key_of, key_checks};
ghost use Rattle.protocol.specs.Prover.{output};
ghost use Rattle.key.specs.Numbers.{Of, Read};
ghost use Rattle.prover.specs.Answers.{answer_of, said, verdict};

use crate::Lent;
use key::Numbers;
use refusals::Refusal;

// The inputs of a call beside the key. The key's bytes go along with its numbers, as A and t are read from them.
pub trait Call: Copy {
    // What they are tested for, and the message that they give.
    ghost checks: { Self → Key → List Check };

    ghost message: { Self → Key → List ℕ };

    // The first test that refuses.
    fn check(self, key: &[u8], k: Numbers) -> Result<(), Refusal>
        requires { Read key.now k }
        ensures { verdict_of result ≡ first (checks self (key_of key.now)) };

    // How long the message is.
    fn size(self, k: Numbers) -> usize
        ensures { (K : Key) → Of k K → first (checks self K) ≡ accepted → length (message self K) ≡ result };

    // The message into a list of its length.
    fn write(self, key: &[u8], k: Numbers, entries: &mut [u32], work: &mut [u32], out: &mut [u8])
        requires read { Read key.now k }
        requires key_good { first (key_checks (key_of key.now) key.now) ≡ accepted }
        requires inputs_good { first (checks self (key_of key.now)) ≡ accepted }
        requires entries_long { k.n * (k.m + 1) ≤ length entries.old }
        requires work_long { 3 * k.m * k.parties ≤ length work.old }
        requires out_long { length out.old ≡ length (message self (key_of key.now)) }
        ensures { out.new ≡ message self (key_of key.now) };
}

// The message of a call into the output from a place on, or why not. The parameters after the inputs are those of the calls in C, and the
// clauses name them.
pub fn answer<C: Call>(
    key: &[u8],
    call: C,
    out: &mut [u8],
    place: usize,
    entries: &mut [u32],
    work: &mut [u32],
) -> Result<usize, Refusal>
    ensures value { said result ≡ answer_of (verdict (C.checks call) (C.message call) key.now (length out.old) place (length work.old) (length entries.old)) (C.message call (key_of key.now)) }
    ensures out_after { out.new ≡ output (verdict (C.checks call) (C.message call) key.now (length out.old) place (length work.old) (length entries.old)) (C.message call (key_of key.now)) place out.old }
{
    let k = key::read(key)?;
    call.check(key, k)?;
    let count = call.size(k);
    let lent = Lent {
        size: out.len(),
        place,
        work: work.len(),
        entries: entries.len(),
    };
    lent.check(k.n, k.m, k.parties, count)?;
    call.write(key, k, entries, work, &mut out[place..place + count]);
    Ok(count)
}
