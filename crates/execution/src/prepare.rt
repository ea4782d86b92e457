// One execution's seeds and shares into lent lists: dealt by the prover, or reopened by the judge.

ghost use Rattle.std.specs.Prelude.{◌≡◌, ◌+◌, ◌*◌, ◌-◌, ◌<◌, ◌≤◌, length};
ghost use Rattle.lists.specs.Bytes.{num};
ghost use Rattle.execution.specs.Lists.{Put, Reduced};
ghost use Rattle.execution.specs.Prepared.{Dealt, Opened, Kept, Given, last_count};

use crate::{Dealing, Sharing, shares};

// The prover's execution, from its master seed and the secret. Nobody is hidden: `parties`, as at `shares::draw_shares`.
pub fn deal(dealing: Dealing, master: &[u8; 16], secret: &[u8], leaves: &mut [u8], work: &mut [u32])
    requires secret_long { length secret.now ≡ dealing.m }
    requires leaves_long { length leaves.old ≡ 16 * dealing.parties }
    requires work_long { 3 * dealing.m * dealing.parties ≤ length work.old }
    ensures dealt { Dealt dealing.modulus.q dealing.m dealing.parties dealing.depth master.now secret.now leaves.new work.new }
    ensures reduced { Reduced dealing.modulus.q dealing.m dealing.parties dealing.parties work.new }
    ensures leaves_len_unchanged { length leaves.new ≡ length leaves.old }
    ensures work_len_unchanged { length work.new ≡ length work.old }
{
    let sharing = Sharing {
        modulus: dealing.modulus,
        m: dealing.m,
        parties: dealing.parties,
    };
    tree::leaves(dealing.depth, master, leaves);
    shares::draw_shares(sharing, sharing.parties, 3 * sharing.m, leaves, work);
    shares::deal_d(sharing, work);
    shares::deal_s(sharing, secret, work);
}

// What h(e) takes of an execution that is opened by master seed: the seeds and party N's d. Nobody is hidden, as in `deal`. What it shares
// with `deal` and `masks::deal_masks` are single calls: one function of them would have to state the list between its steps.
pub fn deal_opened(dealing: Dealing, master: &[u8; 16], leaves: &mut [u8], work: &mut [u32])
    requires leaves_long { length leaves.old ≡ 16 * dealing.parties }
    requires work_long { 3 * dealing.m * dealing.parties ≤ length work.old }
    ensures opened { Opened dealing.modulus.q dealing.m dealing.parties dealing.depth master.now leaves.new work.new }
    ensures leaves_len_unchanged { length leaves.new ≡ length leaves.old }
    ensures work_len_unchanged { length work.new ≡ length work.old }
{
    let sharing = Sharing {
        modulus: dealing.modulus,
        m: dealing.m,
        parties: dealing.parties,
    };
    tree::leaves(dealing.depth, master, leaves);
    shares::draw_shares(sharing, sharing.parties, 2 * sharing.m, leaves, work);
    shares::deal_d(sharing, work);
}

// How many numbers d and s of party N a reply holds. `transcript` counts the same from a key and the party's byte, which may be 0 there, so
// that it cannot call this.
fn last_count(m: usize, parties: usize, hidden: usize) -> usize
    requires m_bound { m ≤ 128 }
    requires hidden_lt_parties { hidden < parties }
    ensures { result ≡ last_count m parties hidden }
{
    if hidden + 1 == parties { 0 } else { 2 * m }
}

// How many bytes a reply has. `transcript::reply_size` is over its own count, see `last_count`.
pub fn reply_length(m: usize, parties: usize, depth: usize, hidden: usize) -> usize
    requires m_bound { m ≤ 128 }
    requires depth_bound { depth ≤ 5 }
    requires hidden_lt_parties { hidden < parties }
    ensures { result ≡ 16 * depth + 32 + 4 * (m + 1 + last_count m parties hidden) }
{
    16 * depth + 32 + 4 * (m + 1 + last_count(m, parties, hidden))
}

// Party N's d and s into their places, from the numbers of a reply, unless party N is hidden.
#[tactic(auto, using(crate::proofs::Laws::put_read))]
fn put_last(sharing: Sharing, hidden: usize, given: &[u8], work: &mut [u32])
    requires hidden_lt_parties { hidden < sharing.parties }
    requires given_long { 4 * (sharing.m + 1 + last_count sharing.m sharing.parties hidden) ≤ length given.now }
    requires work_long { 3 * sharing.m * sharing.parties ≤ length work.old }
    ensures { Put (3 * sharing.m * (sharing.parties - 1) + sharing.m) (last_count sharing.m sharing.parties hidden) (λ j. num given.now (sharing.m + 1 + j)) work.old work.new }
{
    let Sharing { m, parties, .. } = sharing;
    let count = last_count(m, parties, hidden);
    let from = 3 * m * (parties - 1) + m;
    let numbers = &given[4 * (m + 1)..4 * (m + 1 + count)];
    bytes4::read_numbers(numbers, &mut work[from..from + count]);
}

// A kept execution, from what part 7 holds of it: seeds, Γ, m numbers α, one o, and party N's d and s unless it is hidden.
pub fn reopen_kept(
    dealing: Dealing,
    hidden: usize,
    reply: &[u8],
    leaves: &mut [u8],
    work: &mut [u32],
)
    requires hidden_lt_parties { hidden < dealing.parties }
    requires reply_long { length reply.now ≡ 16 * dealing.depth + 32 + 4 * (dealing.m + 1 + last_count dealing.m dealing.parties hidden) }
    requires given { Given dealing.modulus.q dealing.m dealing.parties dealing.depth hidden reply.now }
    requires leaves_long { length leaves.old ≡ 16 * dealing.parties }
    requires work_long { 3 * dealing.m * dealing.parties ≤ length work.old }
    ensures kept { Kept dealing.modulus.q dealing.m dealing.parties dealing.depth hidden reply.now leaves.new work.new }
    ensures reduced { Reduced dealing.modulus.q dealing.m dealing.parties hidden work.new }
    ensures leaves_len_unchanged { length leaves.new ≡ length leaves.old }
    ensures work_len_unchanged { length work.new ≡ length work.old }
{
    let sharing = Sharing {
        modulus: dealing.modulus,
        m: dealing.m,
        parties: dealing.parties,
    };
    let seeds = 16 * dealing.depth;
    tree::reopen(dealing.depth, hidden, &reply[..seeds], leaves);
    shares::draw_shares(sharing, hidden, 3 * sharing.m, leaves, work);
    put_last(sharing, hidden, &reply[seeds + 32..], work);
}
