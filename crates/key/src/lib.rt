// A key's bytes (document 01, Key): its six numbers, its limits, and the entries of A and t.
#![tactic(auto)]

ghost use Rattle.std.specs.Prelude.{◌≡◌, ◌++◌, ◌+◌, ◌*◌, ◌≤◌, length, drop, IfOk};
ghost use Rattle.lists.specs.Tab.{tab};
ghost use Rattle.lists.specs.Index.{holds};
ghost use Rattle.lists.specs.Bytes.{num};
ghost use Rattle.lists.specs.Check.{accepted, first};
ghost use Rattle.numbers.specs.Inverse.{Ns, Member};
ghost use Rattle.refusals.specs.Refused.{verdict_of};
ghost use Rattle.protocol.specs.Key.{Key, entries, key_of, limits, key_checks};
ghost use Rattle.key.specs.Limits.{Limits, Depth};
ghost use Rattle.key.specs.Numbers.{Of, Read, begun};

mod sizes;

use bytes4::{numbers_below, read_numbers};
use numbers::{Modulus, is_modulus, is_parties};
use refusals::Refusal;
pub use sizes::{Numbers, ReadKey};

// The six numbers that a key begins with.
fn front(key: &[u8]) -> [u32; 6]
    requires { 24 ≤ length key.now }
    ensures { result ≡ tab 6 (num key.now) }
{
    let mut six = [0; 6];
    read_numbers(&key[..24], &mut six);
    six
}

// n is 1 to 32, m is 2 to 128, n < m, N is listed, M is 2 to 32, τ is 1 to M - 1.
#[tactic(auto, unfolding(protocol::specs::Key::limits, lists::specs::Index::holds))]
fn in_limits(six: &[u32; 6]) -> bool
    ensures { result ≡ holds (limits (begun six.now)) }
{
    matches!(
        *six,
        [_, n @ 1..=32, m @ 2..=128, parties, executions @ 2..=32, opened @ 1..] if n < m && is_parties(parties as usize) && opened < executions
    )
}

// How many entries A and t have.
pub fn entry_count(n: usize, m: usize) -> usize
    requires n_bound { n ≤ 32 }
    requires m_bound { m ≤ 128 }
    ensures { (result ≡ n * (m + 1)) × (result ≤ 4128) }
{
    n * (m + 1)
}

// Six numbers that are within the limits.
fn carried(six: &[u32; 6]) -> Numbers
    requires { Limits (begun six.now).q (begun six.now).n (begun six.now).m (begun six.now).N (begun six.now).M (begun six.now).τ }
    ensures { Of result (begun six.now) }
{
    let [q, n, m, parties, executions, opened] = *six;
    Numbers {
        modulus: Modulus { q },
        n: n as usize,
        m: m as usize,
        parties: parties as usize,
        depth: depth(parties as usize),
        executions: executions as usize,
        opened: opened as usize,
    }
}

// The six numbers of a key, or the first of 1 to 5 that applies.
pub fn read(key: &[u8]) -> Result<Numbers, Refusal>
    ensures verdict { verdict_of result ≡ first (key_checks (key_of key.now) key.now) }
    ensures read { IfOk result (λ k. Read key.now k) }
{
    if key.len() < 24 {
        return Err(Refusal::KeyShort);
    }
    let six = front(key);
    if !is_modulus(six[0]) {
        return Err(Refusal::KeyModulus);
    }
    if !in_limits(&six) {
        return Err(Refusal::KeyLimits);
    }
    let k = carried(&six);
    if key.len() != 24 + 4 * entry_count(k.n, k.m) {
        return Err(Refusal::KeyLength);
    }
    if !numbers_below(&key[24..], k.modulus.q) {
        return Err(Refusal::KeyEntry);
    }
    Ok(k)
}

// The six numbers of a key that is accepted: a clause and no type, for callers that have the verdict of the bytes alone.
pub fn numbers_of(key: &[u8]) -> Numbers
    requires { first (key_checks (key_of key.now) key.now) ≡ accepted }
    ensures { Read key.now result }
{
    carried(&front(key))
}

// A and t of a key that is accepted, at the front of the lent list, which a C caller may lend longer.
pub fn entries(key: &[u8], at: &mut [u32])
    requires key_value { first (key_checks (key_of key.now) key.now) ≡ accepted }
    requires key_in_bounds { entries (key_of key.now) ≤ length at.old }
    ensures { at.new ≡ tab (entries (key_of key.now)) (key_of key.now).entry ++ drop (entries (key_of key.now)) at.old }
{
    let k = numbers_of(key);
    read_numbers(&key[24..], &mut at[..entry_count(k.n, k.m)]);
}

// log2 N.
pub fn depth(parties: usize) -> usize
    requires { Member parties Ns }
    ensures { Depth parties result }
{
    parties.ilog2() as usize
}
