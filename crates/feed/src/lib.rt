// Numbers into a running hash, four bytes each, the least significant first.
#![tactic(auto)]

ghost use Rattle.sha.specs.State.{Fed};
ghost use Rattle.lists.specs.Bytes.{words};

use sha::Sha;

// A block of numbers at a time, the last one in the front of a list for sixteen: memory is fixed.
pub fn numbers(s: &mut Sha, xs: &[u32])
    ensures { Fed s.old (words xs.now) s.new }
{
    for block in xs.chunks(16) {
        let mut b = [0u8; 64];
        let bytes = &mut b[..4 * block.len()];
        bytes4::put_numbers(block, bytes);
        s.update(bytes);
    }
}
