// The compression function of SHA-256 (FIPS 180-4, 6.2.2). Sums modulo 2^32 are `wrapping_add`.
#![tactic(auto)]

ghost use Rattle.std.specs.Prelude.{◌≡◌, ℕ, ◌+◌, ◌*◌, ◌<◌, ◌≤◌, List, length, take, fold, zip, bit_xor};
ghost use Rattle.sha_core.specs.Examples.{abc, abc_digest, letters, letters_digest};
ghost use Rattle.sha_core.specs.Filled.{Filled};
ghost use Rattle.sha_core.specs.Fips180.{ROTR, SHR, Ch, Maj, W, schedule, round, rounds, added, compress, sha256};

use std::array;

static CONSTANTS: [u32; 64] = [
    0x428a2f98, 0x71374491, 0xb5c0fbcf, 0xe9b5dba5, 0x3956c25b, 0x59f111f1, 0x923f82a4, 0xab1c5ed5,
    0xd807aa98, 0x12835b01, 0x243185be, 0x550c7dc3, 0x72be5d74, 0x80deb1fe, 0x9bdc06a7, 0xc19bf174,
    0xe49b69c1, 0xefbe4786, 0x0fc19dc6, 0x240ca1cc, 0x2de92c6f, 0x4a7484aa, 0x5cb0a9dc, 0x76f988da,
    0x983e5152, 0xa831c66d, 0xb00327c8, 0xbf597fc7, 0xc6e00bf3, 0xd5a79147, 0x06ca6351, 0x14292967,
    0x27b70a85, 0x2e1b2138, 0x4d2c6dfc, 0x53380d13, 0x650a7354, 0x766a0abb, 0x81c2c92e, 0x92722c85,
    0xa2bfe8a1, 0xa81a664b, 0xc24b8b70, 0xc76c51a3, 0xd192e819, 0xd6990624, 0xf40e3585, 0x106aa070,
    0x19a4c116, 0x1e376c08, 0x2748774c, 0x34b0bcb5, 0x391c0cb3, 0x4ed8aa4a, 0x5b9cca4f, 0x682e6ff3,
    0x748f82ee, 0x78a5636f, 0x84c87814, 0x8cc70208, 0x90befffa, 0xa4506ceb, 0xbef9a3f7, 0xc67178f2,
];

fn ch(x: u32, y: u32, z: u32) -> u32
    ensures { result ≡ Ch x y z }
{
    (x & y) ^ (!x & z)
}

fn maj(x: u32, y: u32, z: u32) -> u32
    ensures { result ≡ Maj x y z }
{
    (x & y) ^ (x & z) ^ (y & z)
}

// Three rotations: Σ0 and Σ1.
fn upper<const A: u32, const B: u32, const C: u32>(x: u32) -> u32
    requires { (0 < A) × (A < 32) × (0 < B) × (B < 32) × (0 < C) × (C < 32) }
    ensures { result ≡ bit_xor (bit_xor (ROTR A x) (ROTR B x)) (ROTR C x) }
{
    x.rotate_right(A) ^ x.rotate_right(B) ^ x.rotate_right(C)
}

// Two rotations and a shift: σ0 and σ1.
fn lower<const A: u32, const B: u32, const C: u32>(x: u32) -> u32
    requires { (0 < A) × (A < 32) × (0 < B) × (B < 32) × (0 < C) × (C < 32) }
    ensures { result ≡ bit_xor (bit_xor (ROTR A x) (ROTR B x)) (SHR C x) }
{
    x.rotate_right(A) ^ x.rotate_right(B) ^ (x >> C)
}

// One turn of 6.2.2, 3.
#[tactic(auto, unfolding(crate::specs::Fips180::round, crate::specs::Fips180::T1, crate::specs::Fips180::T2))]
fn step(v: [u32; 8], kw: (&u32, &u32)) -> [u32; 8]
    ensures { result ≡ round v kw.entry.0.now kw.entry.1.now }
{
    let (k, w) = kw;
    let [a, b, c, d, e, f, g, h] = v;
    let t1 = h
        .wrapping_add(upper::<6, 11, 25>(e))
        .wrapping_add(ch(e, f, g))
        .wrapping_add(*k)
        .wrapping_add(*w);
    let t2 = upper::<2, 13, 22>(a).wrapping_add(maj(a, b, c));
    [t1.wrapping_add(t2), a, b, c, d.wrapping_add(t1), e, f, g]
}

// A turn for each of these constants and words.
fn turns(v: &[u32; 8], k: &[u32], w: &[u32]) -> [u32; 8]
    ensures { result ≡ fold (λ v p. round v p.0 p.1) v.now (zip k.now w.now) }
{
    k.iter().zip(w).fold(*v, step)
}

// The words W_0 .. W_15, which are those of the block, and room for the others.
fn load(b: &[u8]) -> [u32; 64]
    requires { length b.now ≡ 64 }
    ensures { take 16 result ≡ schedule 16 b.now }
{
    let mut w = [0u32; 64];
    for (t, bytes) in b.as_chunks().0.iter().enumerate() {
        w[t] = u32::from_be_bytes(*bytes);
    }
    w
}

// The word W_t of 6.2.2, 1, for t from 16 on.
fn next(w: &[u32; 64], t: usize) -> u32
    requires { (16 ≤ t) × (t < 64) }
    ensures { (b : List ℕ) → take t w.now ≡ schedule t b → result ≡ W b (schedule t b) t }
{
    lower::<17, 19, 10>(w[t - 2])
        .wrapping_add(w[t - 7])
        .wrapping_add(lower::<7, 18, 3>(w[t - 15]))
        .wrapping_add(w[t - 16])
}

// The words W_t .. W_(t + 7) that follow from earlier ones of the list. They stand in the same list, so the list and a place are taken.
fn extend_eight(w: &mut [u32; 64], t: usize)
    requires { (length w.old ≡ 64) × (16 ≤ t) × (t + 8 ≤ 64) }
    ensures { (b : List ℕ) → Filled b t w.old w.new }
{
    for j in t..t + 8 {
        w[j] = next(w, j);
    }
}

// The 64 turns of 6.2.2, 3, each eight after their words of the schedule; the first two eights have the block's words. The block is a
// slice, as `chunks_exact` gives it to the fold in `sha`.
#[tactic(auto, unfolding(crate::specs::Fips180::schedule, crate::specs::Fips180::rounds))]
fn run(b: &[u8], h: [u32; 8]) -> [u32; 8]
    requires { length b.now ≡ 64 }
    ensures { result ≡ rounds 64 h (schedule 64 b.now) }
{
    let mut w = load(b);
    let mut v = h;
    for i in 0..8 {
        let t = 8 * i;
        if t >= 16 {
            extend_eight(&mut w, t);
        }
        v = turns(&v, &CONSTANTS[t..t + 8], &w[t..t + 8]);
    }
    v
}

// 6.2.2, 4.
#[tactic(auto, unfolding(crate::specs::Fips180::added))]
fn add_all(v: [u32; 8], h: [u32; 8]) -> [u32; 8]
    ensures { result ≡ added v h }
{
    array::from_fn(|i| v[i].wrapping_add(h[i]))
}

// The hash value after one block more.
#[tactic(auto, unfolding(crate::specs::Fips180::compress))]
pub fn compress_block(h: [u32; 8], b: &[u8]) -> [u32; 8]
    requires b_len { length b.now ≡ 64 }
    ensures { result ≡ compress h b.now }
{
    add_all(run(b, h), h)
}

// NIST's examples of one block and of two, of the definition itself.
#[tactic(auto, using(crate::specs::Examples::digest_abc, crate::specs::Examples::digest_letters))]
pub fn nist_examples()
    ensures { (sha256 abc ≡ abc_digest) × (sha256 letters ≡ letters_digest) }
{}
