// h(e) of an execution that is opened by master seed: the judge's, and message 1's.

ghost use Rattle.std.specs.Prelude.{◌≡◌, ◌*◌, ◌<◌, ◌≤◌, length};
ghost use Rattle.views.specs.Opened.{OpenedHash};

use crate::parties::h_of;
use execution::{Dealing, Lists, prepare};

// h(e) of an execution that is opened by master seed: message 1 and the judge both call this. Other executions are filled by other
// functions of `prepare` and `masks`, and other hashes are made of them. Nobody is hidden (`parties`, as at `shares::draw_shares`), so
// nothing is given.
#[tactic(auto, using(crate::proofs::Laws::opened_for_h))]
pub fn opened_hash(
    dealing: Dealing,
    execution: usize,
    master: &[u8; 16],
    leaves: &mut [u8],
    work: &mut [u32],
) -> [u8; 32]
    requires execution_bound { execution < 32 }
    requires leaves_long { length leaves.old ≡ 16 * dealing.parties }
    requires work_long { 3 * dealing.m * dealing.parties ≤ length work.old }
    ensures opened_hash { OpenedHash dealing.modulus.q dealing.m dealing.parties dealing.depth execution master.now result }
    ensures leaves_len_unchanged { length leaves.new ≡ length leaves.old }
    ensures work_len_unchanged { length work.new ≡ length work.old }
{
    prepare::deal_opened(dealing, master, leaves, work);
    let lists = Lists {
        m: dealing.m,
        parties: dealing.parties,
        leaves,
        work,
    };
    h_of(lists, dealing.parties, execution, &[])
}
