// Where two transcripts fork, and whether the lent lists are long enough.

ghost use Rattle.std.specs.Prelude.{◌≡◌, ◌+◌, ◌*◌, ◌≤◌, true};
ghost use Rattle.protocol.specs.Key.{Key};
ghost use Rattle.protocol.specs.Pair.{enough};
ghost use Rattle.key.specs.Numbers.{Of, key_with};
ghost use Rattle.side.specs.Side.{Sound};
ghost use Rattle.pair.specs.Forks.{Forks, Located};
ghost use Rattle.pair.specs.Lent.{lengths};

use key::{Numbers, ReadKey};
use transcript::split;

// The execution that the reader works on, counted from 0, and the party that each transcript hides in it. The two transcripts are the C
// call's.
#[derive(Clone, Copy, Debug, PartialEq, Eq)]
pub struct Place {
    pub execution: usize,
    pub hidden1: usize,
    pub hidden2: usize,
}

// How long the lists are that are lent to a call. The lists themselves are lent on once they are long enough.
#[derive(Clone, Copy, Debug, PartialEq, Eq)]
pub struct Lent {
    pub hash1: usize,
    pub hash2: usize,
    pub secret: usize,
    pub uv: usize,
    pub entries: usize,
    pub work: usize,
}

// The place of two transcripts that fork.
pub fn locate(key: ReadKey, run1: &[u8], run2: &[u8]) -> Place
    requires { Forks (key_with key.numbers key.entries.now) run1.now run2.now }
    ensures located { Located (key_with key.entry.numbers key.entry.entries.now) run1.now run2.now result.execution result.hidden1 result.hidden2 }
    ensures sound { Sound key.entry.numbers key.entry.entries.now run1.now result.execution result.hidden1 }
    ensures sound_2 { Sound key.entry.numbers key.entry.entries.now run2.now result.execution result.hidden2 }
    ensures hidden_differ { result.hidden1 ≡ result.hidden2 → ⊥ }
{
    let one = split(key.numbers, run1);
    let two = split(key.numbers, run2);
    let execution = fork::execution_of(key.numbers, one.p2, one.p6, two.p6).unwrap();
    Place {
        execution,
        hidden1: fork::hidden_of(one.p2, one.p6, execution),
        hidden2: fork::hidden_of(two.p2, two.p6, execution),
    }
}

// Every lent list is as long as document 01 asks. The other calls lend other lists, so each has a test of its own.
#[tactic(auto, unfolding(protocol::specs::Pair::enough, lists::specs::Index::holds))]
pub fn room(k: Numbers, lent: Lent) -> bool
    ensures value { (K : Key) → Of k K → result ≡ enough K (lengths lent.hash1 lent.hash2 lent.secret lent.uv lent.entries lent.work) }
    ensures hash1_long { result ≡ true → 16400 ≤ lent.hash1 }
    ensures hash2_long { result ≡ true → 16400 ≤ lent.hash2 }
    ensures secret_long { result ≡ true → k.m ≤ lent.secret }
    ensures uv_long { result ≡ true → k.n + k.m ≤ lent.uv }
    ensures entries_long { result ≡ true → k.n * (k.m + 1) ≤ lent.entries }
    ensures work_long { result ≡ true → 4 * k.m * k.parties ≤ lent.work }
{
    4 * k.m * k.parties <= lent.work
        && k.n * (k.m + 1) <= lent.entries
        && 16400 <= lent.hash1
        && 16400 <= lent.hash2
        && k.m <= lent.secret
        && k.n + k.m <= lent.uv
}
