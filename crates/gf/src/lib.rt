// Bytes as elements of GF(2^8), FIPS 197, section 4.
#![tactic(auto)]

ghost use Rattle.std.specs.Prelude.{◌≡◌, ℕ, ◌<◌};
ghost use Rattle.gf.specs.Field.{gmul, inverse};

// x times a (XTIMES): the top bit c comes back as x^4 + x^3 + x + 1, which is x + 1 and x^3 times that.
pub fn xtime(a: u8) -> u8
    ensures { result ≡ gmul 2 a }
{
    let c = a >> 7;
    let d = c ^ (c << 1);
    (a << 1) ^ (d ^ (d << 3))
}

// (x + 1) times a.
pub fn times3(a: u8) -> u8
    ensures { result ≡ gmul 3 a }
{
    xtime(a) ^ a
}

// `inverse` is the inverse of the field, and takes 0 to 0.
#[tactic(auto, using(crate::proofs::Inverse::inverse_of_lem, crate::proofs::Inverse::inverse_byte, crate::proofs::Inverse::inverse_zero))]
pub fn inverse_is_inverse()
    ensures inverts { (a : ℕ) → 0 < a → a < 256 → gmul a (inverse a) ≡ 1 }
    ensures is_byte { (a : ℕ) → a < 256 → inverse a < 256 }
    ensures inverse_value { inverse 0 ≡ 0 }
{}
