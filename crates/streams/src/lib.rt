// Document 01, Hash and streams: the blocks of a seed.
#![tactic(auto)]

ghost use Rattle.std.specs.Prelude.{◌≡◌, ◌++◌, ◌+◌, ◌*◌, ◌-◌, ◌/◌, ◌%◌, ◌^◌, ◌<◌, ◌≤◌, min, length};
ghost use Rattle.lists.specs.Tab.{tab};
ghost use Rattle.aes.specs.Fips197.{cipher};
ghost use Rattle.aes_wide.specs.Wide.{part, counter};
ghost use Rattle.streams.specs.Streams.{block, word64, number};

use numbers::Modulus;

// j as a 16-byte big-endian number.
#[tactic(auto, using(aes_wide::proofs::Laws::counter_bytes))]
fn counter_block(j: u64) -> [u8; 16]
    ensures { result ≡ counter j }
{
    u128::from(j).to_be_bytes()
}

// Block j of a seed.
#[tactic(auto, unfolding(crate::specs::Streams::block, aes::specs::Fips197::aes128))]
pub fn block_of(seed: &[u8; 16], j: u64) -> [u8; 16]
    ensures { result ≡ block seed.now j }
{
    let w = aes::expand(*seed);
    aes::encrypt(&w, counter_block(j))
}

// Blocks j and j + 1 of a seed, with one key schedule.
pub fn two_blocks(seed: &[u8; 16], j: u64) -> [u8; 32]
    requires { j + 1 < 2 ^ 64 }
    ensures { result ≡ block seed.now j ++ block seed.now (j + 1) }
{
    let w = aes::expand(*seed);
    let mut x = [0u8; 32];
    x[..16].copy_from_slice(&aes::encrypt(&w, counter_block(j)));
    x[16..].copy_from_slice(&aes::encrypt(&w, counter_block(j + 1)));
    x
}

// The numbers of sixteen blocks one after the other, two numbers to a block, as many as out has room for.
fn numbers_of(x: &[u8; 256], modulus: Modulus, out: &mut [u32])
    requires { length out.old ≤ 32 }
    ensures { out.new ≡ tab (length out.old) (λ i. word64 (part x.now (i / 2)) (8 * (i % 2)) % modulus.q) }
{
    let (words, _) = x.as_chunks::<8>();
    for (i, number) in out.iter_mut().enumerate() {
        *number = modulus.reduced(u64::from_le_bytes(words[i]));
    }
}

// The numbers of at most sixteen blocks from block j on, under the key schedule w.
fn from_block(w: &[u8; 176], j: u64, modulus: Modulus, out: &mut [u32])
    requires j_bound { j < 2 ^ 63 }
    requires out_len_bound { length out.old ≤ 32 }
    ensures { out.new ≡ tab (length out.old) (λ i. word64 (cipher w.now (counter (j + i / 2))) (8 * (i % 2)) % modulus.q) }
{
    let mut x = [0u8; 256];
    aes_wide::counter_blocks(w, j, &mut x);
    numbers_of(&x, modulus, out);
}

// The numbers of a seed from block c on, as many as out has places. The turns cut out by place: of what a turn of `chunks_mut` wrote
// nothing is known when the loan ends.
pub fn fill(seed: &[u8; 16], c: u64, modulus: Modulus, out: &mut [u32])
    requires c_bound { c < 2 ^ 62 }
    requires out_len_bound { length out.old < 2 ^ 32 }
    ensures { out.new ≡ tab (length out.old) (number modulus.q seed.now c) }
{
    let w = aes::expand(*seed);
    for b in 0..out.len().div_ceil(32) {
        let at = 32 * b;
        let end = out.len().min(at + 32);
        from_block(&w, c + 16 * (b as u64), modulus, &mut out[at..end]);
    }
}
