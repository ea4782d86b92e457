// Document 01, Seed tree: all leaves of a seed, the opening that leaves one out, and the leaves of an opening. A seed is a slice of 16
// bytes, as it is cut from a list.
#![tactic(auto)]

ghost use Rattle.std.specs.Prelude.{◌≡◌, ◌++◌, ◌*◌, ◌^◌, ◌<◌, ◌≤◌, length};
ghost use Rattle.lists.specs.Index.{cat};
ghost use Rattle.streams.specs.Streams.{block};
ghost use Rattle.tree.specs.Tree.{leaf, opening, reopened};

// Both children of a seed, one after the other.
fn children(seed: &[u8]) -> [u8; 32]
    requires { length seed.now ≡ 16 }
    ensures { result ≡ block seed.now 0 ++ block seed.now 1 }
{
    streams::two_blocks(seed.try_into().unwrap(), 0)
}

// The 2 ^ depth leaves below a seed.
pub fn leaves(depth: usize, seed: &[u8], out: &mut [u8])
    requires seed_len { length seed.now ≡ 16 }
    requires out_len { length out.old ≡ 16 * 2 ^ depth }
    ensures { out.new ≡ cat (2 ^ depth) (leaf depth seed.now) }
{
    if depth == 0 {
        out.copy_from_slice(seed);
        return;
    }
    let x = children(seed);
    let (left, right) = x.split_at(16);
    let (first, second) = out.split_at_mut(out.len() / 2);
    leaves(depth - 1, left, first);
    leaves(depth - 1, right, second);
}

// The opening of all leaves below a seed but leaf h.
pub fn open_all_but(depth: usize, seed: &[u8], h: usize, out: &mut [u8])
    requires seed_len { length seed.now ≡ 16 }
    requires out_len { length out.old ≡ 16 * depth }
    requires h_bound { h < 2 ^ depth }
    requires depth_bound { depth ≤ 5 }
    ensures { out.new ≡ opening depth seed.now h }
{
    if depth == 0 {
        return;
    }
    let x = children(seed);
    let (left, right) = x.split_at(16);
    let below = depth - 1;
    let half = 1usize << below;
    if h < half {
        let (front, last) = out.split_at_mut(16 * below);
        open_all_but(below, left, h, front);
        last.copy_from_slice(right);
        return;
    }
    let (first, back) = out.split_at_mut(16);
    first.copy_from_slice(left);
    open_all_but(below, right, h - half, back);
}

// The leaves that the opening x gives, with 16 zero bytes in the place of leaf h.
pub fn reopen(depth: usize, h: usize, x: &[u8], out: &mut [u8])
    requires x_len { length x.now ≡ 16 * depth }
    requires out_len { length out.old ≡ 16 * 2 ^ depth }
    requires h_bound { h < 2 ^ depth }
    ensures { out.new ≡ cat (2 ^ depth) (reopened depth h x.now) }
{
    if depth == 0 {
        out.fill(0);
        return;
    }
    let below = depth - 1;
    let half = out.len() / 2;
    let count = half / 16;
    let (first, second) = out.split_at_mut(half);
    if h < count {
        let (front, last) = x.split_at(16 * below);
        reopen(below, h, front, first);
        leaves(below, last, second);
        return;
    }
    let (left, back) = x.split_at(16);
    leaves(below, left, first);
    reopen(below, h - count, back, second);
}
