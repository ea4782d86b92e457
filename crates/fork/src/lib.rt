// Where two accepted transcripts of one first message fork (document 01, Pair reader). Executions and parties are counted from 0.
#![tactic(auto)]

ghost use Rattle.std.specs.Prelude.{◌≡◌, false, ◌≤◌, ◌<◌, IfSome, MatchOption};
ghost use Rattle.lists.specs.Index.{same};
ghost use Rattle.protocol.specs.Key.{Key};
ghost use Rattle.protocol.specs.Prover.{opened, place, hidden_of};
ghost use Rattle.protocol.specs.Transcript.{Parts};
ghost use Rattle.protocol.specs.Judge.{reply_size};
ghost use Rattle.protocol.specs.Pair.{execution, same_front};
ghost use Rattle.key.specs.Numbers.{Of};
ghost use Rattle.transcript.specs.Seen.{seen};
ghost use Rattle.fork.specs.Fork.{differs};

use bytes4::same_bytes;
use forms::is_opened;
use key::Numbers;
use transcript::{FileParts, hidden_at, reply_size};

// Parts 1 to 5 of two files are equal.
#[tactic(auto, unfolding(protocol::specs::Pair::same_front, lists::specs::Index::holds))]
pub fn same_front(x: FileParts, y: FileParts) -> bool
    ensures { (K : Key) → result ≡ same_front K (seen x.entry) (seen y.entry) }
{
    same_bytes(x.p1, y.p1)
        && same_bytes(x.p2, y.p2)
        && same_bytes(x.p3, y.p3)
        && same_bytes(x.p4, y.p4)
        && same_bytes(x.p5, y.p5)
}

// The hidden lists of two files are equal.
pub fn same_hidden(x: FileParts, y: FileParts) -> bool
    ensures { result ≡ same (seen x.entry).p6 (seen y.entry).p6 }
{
    same_bytes(x.p6, y.p6)
}

// How many executions before e are kept. E may be any list here, so no search in it relies on its order.
#[tactic(auto, unfolding(protocol::specs::Prover::place, lists::specs::Index::count))]
pub fn place_of(p2: &[u8], e: usize) -> usize
    requires { e ≤ 256 }
    ensures { result ≡ place p2.now e }
{
    (0..e).filter(|&j| !is_opened(p2, j)).count()
}

// The hidden party of kept execution e, or 0 past the list's end: an Option would only be unwrapped, since an accepted file has it.
#[tactic(auto, unfolding(protocol::specs::Prover::hidden_of))]
pub fn hidden_of(p2: &[u8], p6: &[u8], e: usize) -> usize
    requires { e ≤ 256 }
    ensures { result ≡ hidden_of p2.now p6.now e }
{
    hidden_at(p6, place_of(p2, e)).saturating_sub(1)
}

// Execution e is kept and hides different parties.
#[tactic(auto, unfolding(crate::specs::Fork::differs))]
fn forks_at(p2: &[u8], h1: &[u8], h2: &[u8], e: usize) -> bool
    requires { e < 256 }
    ensures { result ≡ differs p2.now h1.now h2.now e }
{
    !is_opened(p2, e) && hidden_of(p2, h1, e) != hidden_of(p2, h2, e)
}

// The smallest execution where the hidden parties of two hidden lists differ.
pub fn execution_of(k: Numbers, p2: &[u8], h1: &[u8], h2: &[u8]) -> Option<usize>
    ensures value { (K : Key) (P R : Parts) → Of k K → P.p2 ≡ p2.now → P.p6 ≡ h1.now → R.p2 ≡ p2.now → R.p6 ≡ h2.now → MatchOption result (execution K P R ≡ k.executions) (λ e. e ≡ execution K P R) }
    ensures upper_bound { IfSome result (λ e. e < k.executions) }
{
    (0..k.executions).find(|&e| forks_at(p2, h1, h2, e))
}

// How many bytes part 7 holds of kept execution e.
pub fn reply_length(k: Numbers, p2: &[u8], p6: &[u8], e: usize) -> usize
    requires e_lt_executions { e < k.executions }
    requires e_kept { opened p2.now e ≡ false }
    ensures value { (K : Key) (P : Parts) → Of k K → P.p2 ≡ p2.now → P.p6 ≡ p6.now → result ≡ reply_size K P e }
    ensures upper_bound { result ≤ 1652 }
{
    reply_size(k, hidden_at(p6, place_of(p2, e)))
}
