// SHA-256, AES-128 and the streams of a seed as C functions: what the tests and the benchmark call. Each is one function for C, under its
// own name. None has a `requires`; the caller owes what premise P5 of docs/CLAIMS.md says.
#![tactic(auto)]

ghost use Rattle.std.specs.Prelude.{◌≡◌, length};
ghost use Rattle.sha_core.specs.Fips180.{sha256};
ghost use Rattle.aes.specs.Fips197.{key_expansion, cipher};
ghost use Rattle.aes_wide.specs.Wide.{lane, Lanes};
ghost use Rattle.primitives.specs.Numbers.{answer, written};

use numbers::Modulus;

// The digest of d.
#[unsafe(no_mangle)]
pub extern "C" fn badge_sha256(d: &[u8], out: &mut [u8; 32])
    ensures { out.new ≡ sha256 d.now }
{
    *out = sha::hash(d);
}

// The key schedule.
#[unsafe(no_mangle)]
pub extern "C" fn badge_schedule(key: &[u8; 16], w: &mut [u8; 176])
    ensures { w.new ≡ key_expansion key.now }
{
    *w = aes::expand(*key);
}

// One block.
#[unsafe(no_mangle)]
pub extern "C" fn badge_block(w: &[u8; 176], block: &[u8; 16], out: &mut [u8; 16])
    ensures { out.new ≡ cipher w.now block.now }
{
    *out = aes::encrypt(w, *block);
}

// Sixteen blocks, byte p of block l at place 16 p + l.
#[unsafe(no_mangle)]
pub extern "C" fn badge_sixteen(w: &[u8; 176], blocks: &[u8; 256], out: &mut [u8; 256])
    ensures { Lanes out.new (λ l. cipher w.now (lane blocks.now l)) }
{
    aes_wide::sixteen(w, blocks, out);
}

// The most numbers of one call, and the last block at which they may begin.
const MOST: usize = 4294967295;

const LAST: u64 = 4611686018427387903;

// Numbers of a 16-byte seed from block `first` on, as many as out has places: 0; or 2 where q is no modulus of a key, 6 where the seed has
// another length, 11 where out has 2^32 places or more or `first` is 2^62 or more, and out is untouched then. The numbers are document
// 01's, written out: this crate needs no refusals.
#[tactic(auto, using(crate::proofs::Laws::answer_q, crate::proofs::Laws::answer_seed, crate::proofs::Laws::answer_long, crate::proofs::Laws::answer_far, crate::proofs::Laws::answer_fine))]
#[unsafe(no_mangle)]
pub extern "C" fn badge_numbers(seed: &[u8], first: u64, q: u32, out: &mut [u32]) -> u32
    ensures value { result ≡ answer q (length seed.now) (length out.old) first }
    ensures out_after { out.new ≡ written result seed.now first q out.old }
{
    let Some(modulus) = Modulus::new(q) else {
        return 2;
    };
    let Some(seed) = seed.as_array::<16>() else {
        return 6;
    };
    if out.len() > MOST || first > LAST {
        return 11;
    }
    streams::fill(seed, first, modulus, out);
    0
}
