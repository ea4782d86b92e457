// Π and the sums of α, from the parties' b and s. A row stands in a list of fixed size, as there is no heap.

ghost use Rattle.std.specs.Prelude.{◌≡◌, ◌++◌, ◌+◌, ◌*◌, ◌-◌, ◌%◌, ◌<◌, ◌≤◌, length, get_or, drop};
ghost use Rattle.lists.specs.Tab.{tab};
ghost use Rattle.lists.specs.Index.{cat};
ghost use Rattle.lists.specs.Bytes.{nums};
ghost use Rattle.numbers.specs.Mod.{sub};
ghost use Rattle.numbers.specs.Sum.{sum};
ghost use Rattle.sha_core.specs.Fips180.{sha256};
ghost use Rattle.streams.specs.Streams.{block};
ghost use Rattle.protocol.specs.Shares.{input};
ghost use Rattle.execution.specs.Shown.{place_of};
ghost use Rattle.execution.specs.Lists.{alpha_at};

use execution::{OpenShares, commit, fill};

// α(k, i) of an open party: s - b.
pub fn alpha_open(shares: OpenShares, k: usize, i: usize) -> u32
    requires k_lt_m { k < shares.m }
    requires i_lt_parties { i < shares.parties }
    requires open { i ≡ shares.hidden → ⊥ }
    ensures { result ≡ sub shares.entry.modulus.q (get_or shares.entry.work.now (place_of shares.entry.m i (2 * shares.entry.m + k)) 0) (get_or shares.entry.work.now (place_of shares.entry.m i k) 0) }
{
    let own = 3 * shares.m * i;
    let s = shares.work[own + (2 * shares.m + k)];
    let b = shares.work[own + k];
    shares.modulus.sub(s, b)
}

// α(k, i): given for the hidden party, s - b for the others. Where nobody is hidden, `hidden` is the number of parties, as in
// `execution::shares`.
#[tactic(auto, using(crate::proofs::Laws::alpha_hidden, crate::proofs::Laws::alpha_shown))]
pub fn alpha(shares: OpenShares, k: usize, i: usize, given: &[u8]) -> u32
    requires k_lt_m { k < shares.m }
    requires i_lt_parties { i < shares.parties }
    requires given_long { shares.hidden < shares.parties → 4 * shares.m ≤ length given.now }
    ensures { result ≡ alpha_at shares.entry.modulus.q shares.entry.m shares.entry.hidden given.now shares.entry.work.now k i }
{
    if i == shares.hidden {
        return bytes4::le32(given, k);
    }
    alpha_open(shares, k, i)
}

// α(k, 1) .. α(k, N).
fn alpha_row(shares: OpenShares, k: usize, given: &[u8], out: &mut [u32])
    requires k_lt_m { k < shares.m }
    requires given_long { shares.hidden < shares.parties → 4 * shares.m ≤ length given.now }
    requires out_long { length out.old ≡ shares.parties }
    ensures { out.new ≡ tab shares.entry.parties (alpha_at shares.entry.modulus.q shares.entry.m shares.entry.hidden given.now shares.entry.work.now k) }
{
    fill(out, |i| alpha(shares, k, i, given));
}

// The sum of the numbers of a list.
#[tactic(auto, using(crate::proofs::Laws::sum_list))]
pub fn total(xs: &[u32]) -> u64
    requires { length xs.now ≤ 32 }
    ensures { result ≡ sum (length xs.now) (λ i. get_or xs.now i 0) }
{
    xs.iter().map(|&x| u64::from(x)).sum()
}

// α(k, 1) .. α(k, N), four bytes each; returns their sum modulo q.
pub fn alpha_bytes(shares: OpenShares, k: usize, given: &[u8], out: &mut [u8]) -> u32
    requires k_lt_m { k < shares.m }
    requires given_long { shares.hidden < shares.parties → 4 * shares.m ≤ length given.now }
    requires out_long { length out.old ≡ 4 * shares.parties }
    ensures out_after { out.new ≡ nums shares.entry.parties (alpha_at shares.entry.modulus.q shares.entry.m shares.entry.hidden given.now shares.entry.work.now k) }
    ensures value { result ≡ sum shares.entry.parties (alpha_at shares.entry.modulus.q shares.entry.m shares.entry.hidden given.now shares.entry.work.now k) % shares.entry.modulus.q }
{
    let mut row = [0; 32];
    let row = &mut row[..shares.parties];
    alpha_row(shares, k, given, row);
    bytes4::put_numbers(row, out);
    shares.modulus.reduced(total(row))
}

// Π: all α(k, i), i running fastest, and block 2e of the seed κ. The sums α(1) .. α(m) go to the front of `sums`, which may be longer: an
// exact length would ask more of callers. The kind is document 01's number of this hash, as at `begin`.
pub fn pi_of(
    shares: OpenShares,
    execution: usize,
    given: &[u8],
    kappa: &[u8; 16],
    sums: &mut [u32],
) -> [u8; 32]
    requires execution_bound { execution < 32 }
    requires given_long { shares.hidden < shares.parties → 4 * shares.m ≤ length given.now }
    requires sums_long { shares.m ≤ length sums.old }
    ensures value { result ≡ sha256 (input 6 (execution + 1) 0 (cat shares.entry.m (λ k. nums shares.entry.parties (alpha_at shares.entry.modulus.q shares.entry.m shares.entry.hidden given.now shares.entry.work.now k)) ++ block kappa.now (2 * execution))) }
    ensures sums_after { sums.new ≡ tab shares.entry.m (λ k. sum shares.entry.parties (alpha_at shares.entry.modulus.q shares.entry.m shares.entry.hidden given.now shares.entry.work.now k) % shares.entry.modulus.q) ++ drop shares.entry.m sums.old }
{
    let mut s = commit::begin(6, execution + 1, 0);
    let mut row = [0; 128];
    let row = &mut row[..4 * shares.parties];
    let front = &mut sums[..shares.m];
    for (k, sum) in front.iter_mut().enumerate() {
        *sum = alpha_bytes(shares, k, given, row);
        s.update(row);
    }
    s.update(&streams::block_of(kappa, 2 * execution as u64));
    s.finish()
}
