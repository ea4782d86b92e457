// The joined values of an execution (document 01, Pair reader): sums over the parties of their numbers b, d and s.
#![tactic(auto)]

ghost use Rattle.std.specs.Prelude.{◌≡◌, ◌*◌, ◌<◌, ◌≤◌, length};
ghost use Rattle.lists.specs.Tab.{tab};
ghost use Rattle.numbers.specs.Residue.{Residue};
ghost use Rattle.joined.specs.Joined.{open_sum, with_party};

use execution::shares::column;
use execution::{Sharing, fill};

// The sum over the parties that are open of number j of each, modulo q. The contract takes any number as `hidden`: one that is no party's
// hides nobody.
fn open_sum(sharing: Sharing, hidden: usize, j: usize, work: &[u32]) -> u32
    requires j_bound { j < 3 * sharing.m }
    requires work_long { 3 * sharing.m * sharing.parties ≤ length work.now }
    ensures { Residue sharing.modulus.q (open_sum sharing.modulus.q sharing.m sharing.parties hidden work.now j) result }
{
    let Sharing {
        modulus,
        m,
        parties,
    } = sharing;
    let all = column(work, j, 3 * m, parties);
    if hidden >= parties {
        return modulus.reduced(all);
    }
    modulus.reduced(all - u64::from(work[3 * m * hidden + j]))
}

// Each of the 3m numbers, b, then d, then s, summed over the parties that are open, modulo q.
pub fn join_open(sharing: Sharing, hidden: usize, work: &[u32], sums: &mut [u32])
    requires work_long { 3 * sharing.m * sharing.parties ≤ length work.now }
    requires sums_long { length sums.old ≡ 3 * sharing.m }
    ensures { sums.new ≡ tab (3 * sharing.m) (open_sum sharing.modulus.q sharing.m sharing.parties hidden work.now) }
{
    fill(sums, |j| open_sum(sharing, hidden, j, work));
}

// Party i's 3m numbers added to the sums, modulo q. The closure that `fill` takes could not read the list that is written.
pub fn join_party(sharing: Sharing, i: usize, work: &[u32], sums: &mut [u32])
    requires i_lt_parties { i < sharing.parties }
    requires work_long { 3 * sharing.m * sharing.parties ≤ length work.now }
    requires sums_long { length sums.old ≡ 3 * sharing.m }
    ensures { sums.new ≡ tab (3 * sharing.m) (with_party sharing.modulus.q sharing.m i work.now sums.old) }
{
    let from = 3 * sharing.m * i;
    for (j, sum) in sums.iter_mut().enumerate() {
        *sum = sharing
            .modulus
            .reduced(u64::from(*sum) + u64::from(work[from + j]));
    }
}
