// The b and s of an execution that is dealt, without its d.
#![tactic(auto)]

ghost use Rattle.std.specs.Prelude.{◌≡◌, ◌+◌, ◌*◌, ◌<◌, ◌≤◌, length};
ghost use Rattle.execution.specs.Lists.{Reduced};
ghost use Rattle.masks.specs.Masks.{Row, Masks, Masked};

use execution::{Dealing, Sharing, shares};

// Party i's b, zeros in place of its d, and its s unless it is party N.
fn draw_row(sharing: Sharing, i: usize, seed: &[u8; 16], work: &mut [u32])
    requires i_lt_parties { i < sharing.parties }
    requires work_long { 3 * sharing.m * sharing.parties ≤ length work.old }
    ensures { Row sharing.modulus.q sharing.m sharing.parties i seed.now work.old work.new }
{
    let Sharing { modulus, m, .. } = sharing;
    let from = 3 * m * i;
    shares::draw(modulus, seed, 2, from, m, work);
    work[from + m..from + 2 * m].fill(0);
    if i + 1 < sharing.parties {
        shares::draw(modulus, seed, 2 + m as u64, from + 2 * m, m, work);
    }
}

// Each party's b, and each but party N's s. `shares::draw_shares` draws another row of each seed: one walk would take that step, which
// writes to `work`, as a closure.
#[tactic(auto, using(crate::proofs::Laws::masks_next))]
fn draw_masks(sharing: Sharing, leaves: &[u8], work: &mut [u32])
    requires leaves_long { length leaves.now ≡ 16 * sharing.parties }
    requires work_long { 3 * sharing.m * sharing.parties ≤ length work.old }
    ensures masks { Masks sharing.modulus.q sharing.m sharing.parties leaves.now work.new sharing.parties }
    ensures work_len_unchanged { length work.new ≡ length work.old }
{
    let (seeds, _) = leaves.as_chunks();
    for (i, seed) in seeds.iter().enumerate() {
        draw_row(sharing, i, seed, work);
    }
}

// The seeds, b and s of the prover's execution, from its master seed and the secret. `prepare::deal` draws d too: see `deal_opened` there.
pub fn deal_masks(
    dealing: Dealing,
    master: &[u8; 16],
    secret: &[u8],
    leaves: &mut [u8],
    work: &mut [u32],
)
    requires secret_long { length secret.now ≡ dealing.m }
    requires leaves_long { length leaves.old ≡ 16 * dealing.parties }
    requires work_long { 3 * dealing.m * dealing.parties ≤ length work.old }
    ensures masked { Masked dealing.modulus.q dealing.m dealing.parties dealing.depth master.now secret.now leaves.new work.new }
    ensures reduced { Reduced dealing.modulus.q dealing.m dealing.parties dealing.parties work.new }
    ensures leaves_len_unchanged { length leaves.new ≡ length leaves.old }
    ensures work_len_unchanged { length work.new ≡ length work.old }
{
    let sharing = Sharing {
        modulus: dealing.modulus,
        m: dealing.m,
        parties: dealing.parties,
    };
    tree::leaves(dealing.depth, master, leaves);
    draw_masks(sharing, leaves, work);
    shares::deal_s(sharing, secret, work);
}
