// h(e) and Ω, from the parties' seeds and numbers. The inputs of h(e) and Ω are written into lists of
// fixed size, as there is no heap, and hashed whole.

ghost use Rattle.std.specs.Prelude.{◌≡◌, ◌++◌, ◌+◌, ◌*◌, ◌-◌, ◌<◌, length};
ghost use Rattle.lists.specs.Index.{cat, part};
ghost use Rattle.lists.specs.Bytes.{words};
ghost use Rattle.streams.specs.Streams.{block};
ghost use Rattle.sha_core.specs.Fips180.{sha256};
ghost use Rattle.protocol.specs.Key.{Key};
ghost use Rattle.protocol.specs.Shares.{View, input, hin, Ωin};
ghost use Rattle.views.specs.Seen.{gamma_open, gamma_at, ForH, ForΩ};

use execution::{Lists, commit, shares};

// Γ(i) of an open party, which takes numbers d of party N alone. Its input is fed: with a list of 544 bytes the pair reader took 120 bytes
// of stack more than include/badge.h says. The kind is document 01's number of this hash, as at `begin`.
pub fn gamma_open(lists: Lists, execution: usize, i: usize) -> [u8; 32]
    requires execution_bound { execution < 32 }
    requires i_lt_parties { i < lists.parties }
    ensures { result ≡ gamma_open lists.entry.m lists.entry.parties execution lists.entry.leaves.now lists.entry.work.now i }
{
    let seed: &[u8; 16] = lists.leaves[16 * i..16 * i + 16].try_into().unwrap();
    let count = shares::count_of(lists.m, lists.parties, 0, i);
    let start = 3 * lists.m * i + lists.m;
    let d = &lists.work[start..start + count];
    let mut s = commit::begin(3, execution + 1, i + 1);
    s.update(seed);
    feed::numbers(&mut s, d);
    s.update(&streams::block_of(seed, 0));
    s.finish()
}

// Γ(i): the given bytes for the hidden party, which is the number of parties where nobody is hidden, as in `execution::shares`.
#[tactic(auto, using(crate::proofs::Laws::gamma_hidden, crate::proofs::Laws::gamma_shown))]
pub fn gamma_at(lists: Lists, hidden: usize, execution: usize, i: usize, given: &[u8]) -> [u8; 32]
    requires execution_bound { execution < 32 }
    requires i_lt_parties { i < lists.parties }
    requires given_long { hidden < lists.parties → length given.now ≡ 32 }
    ensures { result ≡ gamma_at lists.entry.m lists.entry.parties hidden execution given.now lists.entry.leaves.now lists.entry.work.now i }
{
    if i == hidden {
        return given.try_into().unwrap();
    }
    gamma_open(lists, execution, i)
}

// h(e)'s input: Γ(1) .. Γ(N), the hidden party as at `gamma_at`. The parts are cut out by place: of what a turn of `chunks_exact_mut` wrote
// nothing is known when the loan ends.
pub fn h_input(lists: Lists, hidden: usize, execution: usize, given: &[u8], out: &mut [u8])
    requires execution_bound { execution < 32 }
    requires given_long { hidden < lists.parties → length given.now ≡ 32 }
    requires out_long { length out.old ≡ 32 * lists.parties }
    ensures { out.new ≡ input 2 (execution + 1) 0 (cat lists.entry.parties (gamma_at lists.entry.m lists.entry.parties hidden execution given.now lists.entry.leaves.now lists.entry.work.now)) }
{
    for i in 0..lists.parties {
        let g = gamma_at(lists, hidden, execution, i, given);
        out[32 * i..32 * i + 32].copy_from_slice(&g);
    }
}

// h(e): the hash of Γ(1) .. Γ(N).
pub fn h_of(lists: Lists, hidden: usize, execution: usize, given: &[u8]) -> [u8; 32]
    requires execution_bound { execution < 32 }
    requires given_long { hidden < lists.parties → length given.now ≡ 32 }
    ensures { (K : Key) (v : View) → ForH lists.entry.m lists.entry.parties hidden execution given.now lists.entry.leaves.now lists.entry.work.now K v → result ≡ sha256 (hin K v) }
{
    let mut bytes = [0; 1024];
    let input = &mut bytes[..32 * lists.parties];
    h_input(lists, hidden, execution, given, input);
    sha::hash(input)
}

// Ω's input: party N's numbers s and block 1 of its seed.
pub fn omega_input(lists: Lists, execution: usize, out: &mut [u8])
    requires execution_bound { execution < 32 }
    requires out_long { length out.old ≡ 4 * lists.m + 16 }
    ensures { out.new ≡ input 4 (execution + 1) lists.entry.parties (words (part lists.entry.work.now (3 * lists.entry.m * (lists.entry.parties - 1) + 2 * lists.entry.m) lists.entry.m) ++ block (part lists.entry.leaves.now (16 * (lists.entry.parties - 1)) 16) 1) }
{
    let last = lists.parties - 1;
    let seed = lists.leaves[16 * last..16 * last + 16].try_into().unwrap();
    let start = 3 * lists.m * last + 2 * lists.m;
    let s = &lists.work[start..start + lists.m];
    commit::put_with_block(s, seed, 1, out);
}

// Ω: the hash of its input.
pub fn omega_of(lists: Lists, execution: usize) -> [u8; 32]
    requires { execution < 32 }
    ensures { (K : Key) (v : View) → ForΩ lists.entry.m lists.entry.parties execution lists.entry.leaves.now lists.entry.work.now K v → result ≡ sha256 (Ωin K v) }
{
    let mut bytes = [0; 528];
    let input = &mut bytes[..4 * lists.m + 16];
    omega_input(lists, execution, input);
    sha::hash(input)
}
