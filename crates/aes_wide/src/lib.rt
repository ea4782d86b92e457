// AES-128, sixteen blocks at a time: byte p of block l stands at place 16 p + l, or, once counter blocks are done, at 16 l + p.
// The steps are not those of `aes` over rows [[u8; N]; 16]: that was tried, and one block, N = 1, takes 3 to 4 % longer so. Of blocks and
// of a stream's numbers at most plain C's time is asked, and on the machine of docs/landings/base-1.md they take 0.97 to 1.07 of it: there
// is no room for a form that takes longer. A round's number is a bare index, as in `aes`.
#![tactic(auto)]

ghost use Rattle.std.specs.Prelude.{List, ℕ, ◌+◌, ◌*◌, ◌%◌, ◌^◌, ◌<◌, ◌≤◌};
ghost use Rattle.aes.specs.Fips197.{sub_bytes, shift_rows, mix_columns, add_key, rounds, cipher};
ghost use Rattle.aes_wide.specs.Wide.{lane, Lanes, Blocks, Flat, counter};

use std::ops::Range;

// The counter blocks j to j + 15.
pub fn counters(j: u64, r: &mut [u8; 256])
    requires j_bound { j + 15 < 18446744073709551616 }
    ensures { Lanes r.new (λ l. counter (j + l)) }
{
    for l in 0..16 {
        for (p, byte) in u128::from(j + (l as u64)).to_be_bytes().iter().enumerate() {
            r[16 * p + l] = *byte;
        }
    }
}

// The steps are inlined, so that the states stay in registers: as calls they take a fifth more time. They write by place: of what a row
// holds after `iter_mut().zip(..)` a proof learns nothing, and over the key's bytes in place of 0..16 `sixteen` takes a tenth more time.

// AddRoundKey in each block.
#[inline(always)]
fn add_key(w: &[u8; 176], n: usize, s: &[u8; 256], r: &mut [u8; 256])
    requires { n < 11 }
    ensures { Lanes r.new (λ l. add_key w.now n (lane s.now l)) }
{
    for p in 0..16 {
        let k = w[16 * n + p];
        for l in 0..16 {
            r[16 * p + l] = s[16 * p + l] ^ k;
        }
    }
}

// SubBytes and ShiftRows in each block. Outside `differing` a byte is the same in each block, and is looked up once.
#[inline(always)]
fn sub_shift(s: &[u8; 256], differing: Range<usize>, r: &mut [u8; 256])
    requires { (p : ℕ) → p < 16 → (differing.start ≤ p → p < differing.end → ⊥) → Flat s.now p }
    ensures { Lanes r.new (λ l. shift_rows (sub_bytes (lane s.now l))) }
{
    for p in 0..16 {
        let from = (p + 4 * (p % 4)) % 16;
        if differing.contains(&from) {
            for l in 0..16 {
                r[16 * p + l] = sbox::sub(s[16 * from + l]);
            }
        } else {
            r[16 * p..16 * p + 16].fill(sbox::sub(s[16 * from]));
        }
    }
}

// MixColumns and AddRoundKey in each block. The four rows of the matrix stand one by one, as in the standard: a loop over them counts
// modulo 4, and takes 2 % longer.
#[inline(always)]
fn mix_key(w: &[u8; 176], n: usize, s: &[u8; 256], r: &mut [u8; 256])
    requires { n < 11 }
    ensures { Lanes r.new (λ l. add_key w.now n (mix_columns (lane s.now l))) }
{
    for c in 0..4 {
        let p = 4 * c;
        let k0 = w[16 * n + p];
        let k1 = w[16 * n + (p + 1)];
        let k2 = w[16 * n + (p + 2)];
        let k3 = w[16 * n + (p + 3)];
        for l in 0..16 {
            let i = 64 * c + l;
            let a = s[i];
            let b = s[i + 16];
            let d = s[i + 32];
            let e = s[i + 48];
            r[i] = aes::mix(a, b, d, e) ^ k0;
            r[i + 16] = aes::mix(b, d, e, a) ^ k1;
            r[i + 32] = aes::mix(d, e, a, b) ^ k2;
            r[i + 48] = aes::mix(e, a, b, d) ^ k3;
        }
    }
}

// Round n of the states u, which are the same outside `differing`. v is room for what the steps give.
#[inline(always)]
fn round(w: &[u8; 176], n: usize, differing: Range<usize>, u: &mut [u8; 256], v: &mut [u8; 256])
    requires n_bound { n < 11 }
    requires flat { (p : ℕ) → p < 16 → (differing.start ≤ p → p < differing.end → ⊥) → Flat u.old p }
    ensures { Lanes u.new (λ l. add_key w.now n (mix_columns (shift_rows (sub_bytes (lane u.old l))))) }
{
    sub_shift(u, differing, v);
    mix_key(w, n, v, u);
}

// The rounds n + 1 to 9.
fn rounds_from(w: &[u8; 176], n: usize, u: &mut [u8; 256], v: &mut [u8; 256])
    requires { n < 10 }
    ensures { (s : ℕ → List ℕ) → Lanes u.old (λ l. rounds w.now n (s l)) → Lanes u.new (λ l. rounds w.now 9 (s l)) }
{
    for k in n..9 {
        round(w, k + 1, 0..16, u, v);
    }
}

// The rounds 1 to 9 of blocks that differ in byte 15 only: after the first they differ in the bytes 0 to 3 only.
fn close_rounds(w: &[u8; 176], u: &mut [u8; 256], v: &mut [u8; 256])
    requires { (p : ℕ) → p < 15 → Flat u.old p }
    ensures { Lanes u.new (λ l. rounds w.now 9 (lane u.old l)) }
{
    round(w, 1, 15..16, u, v);
    round(w, 2, 0..4, u, v);
    rounds_from(w, 2, u, v);
}

// The last round in each block, the blocks laid out one after the other.
fn last_blocks(w: &[u8; 176], s: &[u8; 256], r: &mut [u8; 256])
    ensures { Blocks r.new (λ l. add_key w.now 10 (shift_rows (sub_bytes (lane s.now l)))) }
{
    for l in 0..16 {
        for p in 0..16 {
            let b = 16 * ((p + 4 * (p % 4)) % 16);
            let key = w[160 + p];
            r[16 * l + p] = sbox::sub(s[b + l]) ^ key;
        }
    }
}

// Cipher of each block, under the key schedule w.
pub fn sixteen(w: &[u8; 176], s: &[u8; 256], r: &mut [u8; 256])
    ensures { Lanes r.new (λ l. cipher w.now (lane s.now l)) }
{
    let mut u = [0u8; 256];
    let mut v = [0u8; 256];
    add_key(w, 0, s, &mut u);
    rounds_from(w, 0, &mut u, &mut v);
    sub_shift(&u, 0..16, &mut v);
    add_key(w, 10, &v, r);
}

// Cipher of the counter blocks j to j + 15, under the key schedule w, one after the other.
pub fn counter_blocks(w: &[u8; 176], j: u64, r: &mut [u8; 256])
    requires j_bound { j + 15 < 18446744073709551616 }
    ensures { Blocks r.new (λ l. cipher w.now (counter (j + l))) }
{
    let mut u = [0u8; 256];
    let mut v = [0u8; 256];
    counters(j, &mut v);
    add_key(w, 0, &v, &mut u);
    if j % 256 < 241 {
        close_rounds(w, &mut u, &mut v);
    } else {
        rounds_from(w, 0, &mut u, &mut v);
    }
    last_blocks(w, &u, r);
}
