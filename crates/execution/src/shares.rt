// The shares of one execution in a lent work list: party i's b, d and s stand from place 3m·i on, m numbers each.

ghost use Rattle.std.specs.Prelude.{◌≡◌, ℕ, ◌+◌, ◌*◌, ◌-◌, ◌^◌, ◌<◌, ◌≤◌, length, get_or};
ghost use Rattle.numbers.specs.Mod.{sub};
ghost use Rattle.numbers.specs.Sum.{sum};
ghost use Rattle.numbers.specs.Residue.{Residue};
ghost use Rattle.streams.specs.Streams.{number};
ghost use Rattle.execution.specs.Lists.{Put, count_of, Drawn, column_of, last_d, last_s};

use crate::Sharing;
use numbers::Modulus;

// How many numbers party i takes, `per` of them unless it is party N. No code branches on that count: an enum of the steps that take 0, 2m
// or 3m would be turned into it.
pub fn count_of(m: usize, parties: usize, per: usize, i: usize) -> usize
    requires { i < parties }
    ensures { result ≡ count_of m parties per i }
{
    if i + 1 == parties { m } else { per }
}

// `count` numbers of a seed, from its block `first` on, to the work list from place `from` on. The whole list and a place are taken, since
// the clause says that the rest of the list stays.
#[tactic(auto, using(crate::proofs::Laws::put_filled))]
pub fn draw(
    modulus: Modulus,
    seed: &[u8; 16],
    first: u64,
    from: usize,
    count: usize,
    work: &mut [u32],
)
    requires first_bound { first < 2 ^ 62 }
    requires count_bound { count < 2 ^ 32 }
    requires count_in_bounds { from + count ≤ length work.old }
    ensures { Put from count (number modulus.q seed.now first) work.old work.new }
{
    streams::fill(seed, first, modulus, &mut work[from..from + count]);
}

// Party i's numbers, from its seed: `per` of them, party N's m.
pub fn draw_party(sharing: Sharing, per: usize, i: usize, seed: &[u8; 16], work: &mut [u32])
    requires per_bounds { (sharing.m ≤ per) × (per ≤ 3 * sharing.m) }
    requires i_lt_parties { i < sharing.parties }
    requires work_long { 3 * sharing.m * sharing.parties ≤ length work.old }
    ensures { Put (3 * sharing.m * i) (count_of sharing.m sharing.parties per i) (number sharing.modulus.q seed.now 2) work.old work.new }
{
    let count = count_of(sharing.m, sharing.parties, per, i);
    draw(sharing.modulus, seed, 2, 3 * sharing.m * i, count, work);
}

// Each open party's numbers, from its seed: `per` of them, party N's m. Where nobody is hidden, `hidden` is the number of parties, here and
// wherever a hidden party is named: no party has that number, so `i != hidden` serves both cases, and an Option would be turned into it for
// specs/.
#[tactic(auto, using(crate::proofs::Laws::drawn_hidden, crate::proofs::Laws::drawn_next))]
pub fn draw_shares(sharing: Sharing, hidden: usize, per: usize, leaves: &[u8], work: &mut [u32])
    requires leaves_long { length leaves.now ≡ 16 * sharing.parties }
    requires per_bounds { (sharing.m ≤ per) × (per ≤ 3 * sharing.m) }
    requires work_long { 3 * sharing.m * sharing.parties ≤ length work.old }
    ensures drawn { Drawn sharing.modulus.q sharing.m sharing.parties hidden per leaves.now work.new sharing.parties }
    ensures work_len_unchanged { length work.new ≡ length work.old }
{
    let (seeds, _) = leaves.as_chunks();
    for (i, seed) in seeds.iter().enumerate() {
        if i != hidden {
            draw_party(sharing, per, i, seed, work);
        }
    }
}

// The sum of `count` numbers, `stride` apart. The stride may be 0, which `step_by` refuses.
#[tactic(auto, using(crate::proofs::Laws::sum_step), unfolding(numbers::specs::Sum::sum))]
pub fn column(work: &[u32], start: usize, stride: usize, count: usize) -> u64
    requires count_bound { (count ≤ 32) × (stride ≤ 384) × (start ≤ 12288) }
    requires within { (i : ℕ) → i < count → stride * i + start < length work.now }
    ensures { result ≡ sum count (λ i. get_or work.now (stride * i + start) 0) }
{
    let mut total = 0;
    for i in 0..count {
        total += u64::from(work[stride * i + start]);
    }
    total
}

// x less number j of each party but N.
#[tactic(auto, using(crate::proofs::Laws::last_s_is, numbers::proofs::Inverse::q_positive))]
fn less_others(sharing: Sharing, x: u32, j: usize, work: &[u32]) -> u32
    requires x_lt_q { x < sharing.modulus.q }
    requires j_lt_3m { j < 3 * sharing.m }
    requires work_long { 3 * sharing.m * sharing.parties ≤ length work.now }
    ensures { Residue sharing.modulus.q (sub sharing.modulus.q x (column_of sharing.m (sharing.parties - 1) work.now j)) result }
{
    let Sharing {
        modulus,
        m,
        parties,
    } = sharing;
    let others = modulus.reduced(column(work, j, 3 * m, parties - 1));
    modulus.sub(x, others)
}

// d(k) of party N: the square of the sum of all b, less the other d's.
#[tactic(auto, using(crate::proofs::Laws::last_d_is, numbers::proofs::Inverse::q_positive), unfolding(crate::specs::Lists::last_d))]
fn last_d(sharing: Sharing, k: usize, work: &[u32]) -> u32
    requires k_lt_m { k < sharing.m }
    requires work_long { 3 * sharing.m * sharing.parties ≤ length work.now }
    ensures { Residue sharing.modulus.q (last_d sharing.modulus.q sharing.m sharing.parties work.now k) result }
{
    let Sharing {
        modulus,
        m,
        parties,
    } = sharing;
    let b = modulus.reduced(column(work, k, 3 * m, parties));
    less_others(sharing, modulus.mul(b, b), m + k, work)
}

// Party N's d, from the other numbers in the list. One walk for d and s would take a step over the list that it writes to.
pub fn deal_d(sharing: Sharing, work: &mut [u32])
    requires work_long { 3 * sharing.m * sharing.parties ≤ length work.old }
    ensures { Put (3 * sharing.m * (sharing.parties - 1) + sharing.m) sharing.m (last_d sharing.modulus.q sharing.m sharing.parties work.old) work.old work.new }
{
    let from = 3 * sharing.m * (sharing.parties - 1) + sharing.m;
    for k in 0..sharing.m {
        work[from + k] = last_d(sharing, k, work);
    }
}

// Party N's s, from the other numbers in the list and the secret.
pub fn deal_s(sharing: Sharing, secret: &[u8], work: &mut [u32])
    requires secret_long { length secret.now ≡ sharing.m }
    requires work_long { 3 * sharing.m * sharing.parties ≤ length work.old }
    ensures { Put (3 * sharing.m * (sharing.parties - 1) + 2 * sharing.m) sharing.m (λ k. last_s sharing.modulus.q sharing.m sharing.parties work.old (get_or secret.now k 0) k) work.old work.new }
{
    let from = 3 * sharing.m * (sharing.parties - 1) + 2 * sharing.m;
    for (k, &entry) in secret.iter().enumerate() {
        work[from + k] = less_others(sharing, u32::from(entry), 2 * sharing.m + k, work);
    }
}
