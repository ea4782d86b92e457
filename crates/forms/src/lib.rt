// The form of the prover's inputs and of a transcript's lists (document 01, "Where each number is given", 7 to 10).
#![tactic(auto)]

ghost use Rattle.std.specs.Prelude.{◌≡◌, ◌∷◌, ◌+◌, ◌*◌, ◌-◌, ◌%◌, ◌<◌, leb, ltb, length, get_or};
ghost use Rattle.lists.specs.Index.{every};
ghost use Rattle.lists.specs.Bytes.{num};
ghost use Rattle.numbers.specs.Sum.{sum};
ghost use Rattle.protocol.specs.Key.{Key, key_of};
ghost use Rattle.protocol.specs.Prover.{opened, good_e, good_hidden, solves, binary};
ghost use Rattle.key.specs.Numbers.{Read};

use bytes4::le32;
use key::Numbers;
use numbers::Modulus;

// Each entry is at most `top`.
fn at_most(x: &[u8], top: usize) -> bool
    ensures { result ≡ every (length x.now) (λ j. leb (get_or x.now j 0) top) }
{
    x.iter().all(|&v| usize::from(v) <= top)
}

// Each entry is 1 or more.
fn positive(x: &[u8]) -> bool
    ensures { result ≡ every (length x.now) (λ j. leb 1 (get_or x.now j 0)) }
{
    x.iter().all(|&v| v >= 1)
}

// Each entry is above the one before it, the first above 0.
fn rising(x: &[u8]) -> bool
    ensures { result ≡ every (length x.now) (λ j. ltb (get_or (0 ∷ x.now) j 0) (get_or x.now j 0)) }
{
    positive(x) && x.is_sorted_by(|a, b| a < b)
}

// E is τ strictly rising values in 1..M.
pub fn good_opened(e: &[u8], opened: usize, executions: usize) -> bool
    ensures { (K : Key) → K.τ ≡ opened → K.M ≡ executions → result ≡ good_e K e.now }
{
    e.len() == opened && rising(e) && at_most(e, executions)
}

// A hidden list is `kept` values in 1..N.
pub fn good_hidden(hidden: &[u8], kept: usize, parties: usize) -> bool
    ensures { (K : Key) → K.M - K.τ ≡ kept → K.N ≡ parties → result ≡ good_hidden K hidden.now }
{
    hidden.len() == kept && positive(hidden) && at_most(hidden, parties)
}

// Execution x, counted from 0, is opened by master seed.
pub fn is_opened(e: &[u8], x: usize) -> bool
    requires { x < 256 }
    ensures { result ≡ opened e.now x }
{
    e.iter().any(|&v| usize::from(v) == x + 1)
}

// Each entry of a secret is 0 or 1.
pub fn is_binary(secret: &[u8]) -> bool
    ensures { (K : Key) → K.m ≡ length secret.now → result ≡ binary K (λ j. get_or secret.now j 0) }
{
    at_most(secret, 1)
}

// A row of A times the secret. A function of its own beside reading's `row`, whose entries and secret are numbers: one over both would take
// iterators of u32, a `map` from bytes and from entries at each call, and be as long.
fn row_sum(row: &[u8], secret: &[u8], modulus: Modulus) -> u32
    requires { length row.now ≡ 4 * length secret.now }
    ensures { result ≡ sum (length secret.now) (λ j. num row.now j * get_or secret.now j 0) % modulus.q }
{
    let mut acc = 0;
    for (j, &s) in secret.iter().enumerate() {
        acc = modulus.mul_add(acc, le32(row, j), u32::from(s));
    }
    acc
}

// A·s = t modulo q. A loop: with `all` the closure needs a clause of its own for the row's length, and is longer.
pub fn is_solution(key: &[u8], k: Numbers, secret: &[u8]) -> bool
    requires read { Read key.now k }
    requires secret_long { length secret.now ≡ k.m }
    ensures { result ≡ solves (key_of key.now) (λ j. get_or secret.now j 0) }
{
    let (rows, targets) = key[24..].split_at(4 * k.n * k.m);
    for (l, row) in rows.chunks_exact(4 * k.m).enumerate() {
        if row_sum(row, secret, k.modulus) != le32(targets, l) {
            return false;
        }
    }
    true
}
