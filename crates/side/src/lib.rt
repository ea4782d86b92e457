// One side of a fork (document 01, Pair reader): a kept execution of an accepted transcript, its shares and its hash inputs.
// Executions and parties are counted from 0.
#![tactic(auto)]

ghost use Rattle.std.specs.Prelude.{◌≡◌, ◌*◌, ◌≤◌, length};
ghost use Rattle.protocol.specs.Transcript.{parts_of};
ghost use Rattle.key.specs.Numbers.{key_with};
ghost use Rattle.inputs.specs.Layout.{execution_size};
ghost use Rattle.side.specs.Side.{Sided, Sound};

use execution::{Dealing, Evaluation, prepare};
use key::ReadKey;

// The shares and the hash inputs of kept execution e of an accepted file, whose hidden party is given. The seeds stand in a list for the
// most parties, since there is no heap. Other crates deal or open an execution with other functions, so that only this frame is alike.
pub fn open_side(
    key: ReadKey,
    e: usize,
    hidden: usize,
    run: &[u8],
    inputs: &mut [u8],
    work: &mut [u32],
)
    requires sound { Sound key.numbers key.entries.now run.now e hidden }
    requires inputs_long { length inputs.old ≡ execution_size key.numbers.m key.numbers.parties }
    requires work_long { 3 * key.numbers.m * key.numbers.parties ≤ length work.old }
    ensures sided { Sided (key_with key.entry.numbers key.entry.entries.now) (parts_of run.now) e inputs.new work.new }
    ensures inputs_len_unchanged { length inputs.new ≡ length inputs.old }
    ensures work_len_unchanged { length work.new ≡ length work.old }
{
    let k = key.numbers;
    let parts = transcript::split(k, run);
    let at = transcript::reply_start(k, parts.p2, parts.p6, e);
    let end = at + fork::reply_length(k, parts.p2, parts.p6, e);
    let reply = &parts.p7[at..end];
    let kappa = parts.p7.first_chunk().unwrap();
    let seed = parts.p4.try_into().unwrap();
    let dealing = Dealing {
        modulus: k.modulus,
        m: k.m,
        parties: k.parties,
        depth: k.depth,
    };
    let mut seeds = [0; 512];
    let leaves = &mut seeds[..16 * k.parties];
    prepare::reopen_kept(dealing, hidden, reply, leaves, work);
    let evaluation = Evaluation {
        modulus: k.modulus,
        n: k.n,
        m: k.m,
        parties: k.parties,
        hidden,
        entries: key.entries,
        work,
    };
    execution_inputs::write(evaluation, k.depth, e, reply, kappa, seed, leaves, inputs);
}
