// AES-128, FIPS 197: the key schedule and the encryption of one block. A round's number n is a bare index with its bound beside it: a type
// for it would hold that one number, which each contract would read from a field. Sixteen blocks side by side have functions of their own,
// for speed: see `aes_wide`.
#![tactic(auto)]

ghost use Rattle.std.specs.Prelude.{◌≡◌, ◌+◌, ◌<◌};
ghost use Rattle.aes.specs.Fips197.{sub_bytes, shift_rows, mix_byte, mix_columns, add_key, x_power, word, xor_word, sub_word, rot_word, rcon, key_expansion, cipher, aes128};
ghost use Rattle.aes.specs.Example.{key_b, input_b, output_b};

use std::array;

// x to the powers 0 to 9, the constants of the key schedule.
static POWERS: [u8; 10] = [0x01, 0x02, 0x04, 0x08, 0x10, 0x20, 0x40, 0x80, 0x1b, 0x36];

fn x_power(j: usize) -> u8
    requires { j < 10 }
    ensures { result ≡ x_power j }
{
    POWERS[j]
}

// Word i of the key schedule.
#[tactic(auto, unfolding(crate::specs::Fips197::word, lists::specs::Tab::tab))]
fn word(w: &[u8; 176], i: usize) -> [u8; 4]
    requires { i < 44 }
    ensures { result ≡ word w.now i }
{
    array::from_fn(|j| w[4 * i + j])
}

#[tactic(auto, unfolding(crate::specs::Fips197::xor_word, lists::specs::Tab::tab))]
fn xor_word(a: [u8; 4], b: [u8; 4]) -> [u8; 4]
    ensures { result ≡ xor_word a b }
{
    array::from_fn(|j| a[j] ^ b[j])
}

// SubWord and RotWord of a word, and Rcon[j + 1].
fn turned(a: [u8; 4], j: usize) -> [u8; 4]
    requires { j < 10 }
    ensures { result ≡ xor_word (sub_word (rot_word a)) (rcon (j + 1)) }
{
    [
        sbox::sub(a[1]) ^ x_power(j),
        sbox::sub(a[2]),
        sbox::sub(a[3]),
        sbox::sub(a[0]),
    ]
}

// KeyExpansion: after each four words, temp is turned.
pub fn expand(key: [u8; 16]) -> [u8; 176]
    ensures { result ≡ key_expansion key }
{
    let mut w = [0u8; 176];
    w[..16].copy_from_slice(&key);
    let mut temp = word(&w, 3);
    for r in 0..10 {
        temp = turned(temp, r);
        for k in 0..4 {
            let n = 4 * r + k;
            temp = xor_word(word(&w, n), temp);
            let at = 16 + 4 * n;
            w[at..at + 4].copy_from_slice(&temp);
        }
    }
    w
}

// A row of the matrix of MixColumns times a column.
#[tactic(auto, unfolding(crate::specs::Fips197::mix_byte))]
pub fn mix(a: u8, b: u8, c: u8, d: u8) -> u8
    ensures { result ≡ mix_byte a b c d }
{
    gf::xtime(a) ^ gf::times3(b) ^ c ^ d
}

// AddRoundKey.
fn add_key(w: &[u8; 176], n: usize, s: &[u8; 16]) -> [u8; 16]
    requires { n < 11 }
    ensures { result ≡ add_key w.now n s.now }
{
    array::from_fn(|i| s[i] ^ w[16 * n + i])
}

// A round of Algorithm 1, column by column: the four steps at once, with no state between them. The four rows of the matrix stand one by
// one, as in the standard.
fn round(w: &[u8; 176], n: usize, s: &[u8; 16]) -> [u8; 16]
    requires { n < 11 }
    ensures { result ≡ add_key w.now n (mix_columns (shift_rows (sub_bytes s.now))) }
{
    let mut r = [0u8; 16];
    for c in 0..4 {
        let i = 4 * c;
        let a = sbox::sub(s[i]);
        let b = sbox::sub(s[(i + 5) % 16]);
        let d = sbox::sub(s[(i + 10) % 16]);
        let e = sbox::sub(s[(i + 15) % 16]);
        r[i] = mix(a, b, d, e) ^ w[16 * n + i];
        r[i + 1] = mix(b, d, e, a) ^ w[16 * n + (i + 1)];
        r[i + 2] = mix(d, e, a, b) ^ w[16 * n + (i + 2)];
        r[i + 3] = mix(e, a, b, d) ^ w[16 * n + (i + 3)];
    }
    r
}

// The last round, which mixes no columns.
fn last_round(w: &[u8; 176], s: &[u8; 16]) -> [u8; 16]
    ensures { result ≡ add_key w.now 10 (shift_rows (sub_bytes s.now)) }
{
    array::from_fn(|i| sbox::sub(s[(i + 4 * (i % 4)) % 16]) ^ w[160 + i])
}

// Cipher: one block, under the key schedule w.
pub fn encrypt(w: &[u8; 176], block: [u8; 16]) -> [u8; 16]
    ensures { result ≡ cipher w.now block }
{
    let mut s = add_key(w, 0, &block);
    for n in 0..9 {
        s = round(w, n + 1, &s);
    }
    last_round(w, &s)
}

// The worked example of appendix B, of the definition itself.
#[tactic(auto, using(crate::specs::Example::appendix_b))]
pub fn fips_197_appendix_b()
    ensures { aes128 key_b input_b ≡ output_b }
{}
