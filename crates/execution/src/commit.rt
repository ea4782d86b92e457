// What commitments hash. A hash that is fed piece by piece is begun here, from its kind, execution and party.

ghost use Rattle.std.specs.Prelude.{◌≡◌, ◌++◌, ◌+◌, ◌*◌, length};
ghost use Rattle.lists.specs.Bytes.{words};
ghost use Rattle.streams.specs.Streams.{block};
ghost use Rattle.protocol.specs.Shares.{input};
ghost use Rattle.execution.specs.Begun.{Begun};

use sha::Sha;

// A running hash for an input of this kind. Nothing is fed yet, as `input` puts nothing in front. The kind is document 01's number, and any
// number may be given: nothing reads it but the clause, and an enum would be turned back there and ask more of callers.
pub fn begin(kind: u32, execution: usize, party: usize) -> Sha
    ensures { Begun kind execution party result }
{
    Sha::new()
}

// Numbers, then block j of a seed.
pub fn put_with_block(xs: &[u32], seed: &[u8; 16], j: u64, out: &mut [u8])
    requires { length out.old ≡ 4 * length xs.now + 16 }
    ensures { out.new ≡ words xs.now ++ block seed.now j }
{
    let (numbers, block) = out.split_at_mut(4 * xs.len());
    bytes4::put_numbers(xs, numbers);
    block.copy_from_slice(&streams::block_of(seed, j));
}

// Γ's input: the seed, the numbers d (party N's, else none), and block 0 of the seed.
pub fn gamma_input(execution: usize, party: usize, seed: &[u8; 16], d: &[u32], out: &mut [u8])
    requires { length out.old ≡ 4 * length d.now + 32 }
    ensures { out.new ≡ input 3 execution party (seed.now ++ words d.now ++ block seed.now 0) }
{
    let (front, rest) = out.split_at_mut(16);
    front.copy_from_slice(seed);
    put_with_block(d, seed, 0, rest);
}
