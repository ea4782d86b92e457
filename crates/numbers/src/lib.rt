// Arithmetic modulo the three primes q of document 01.
#![tactic(auto)]

ghost use Rattle.std.specs.Prelude.{◌≡◌};
ghost use Rattle.lists.specs.Index.{member};
ghost use Rattle.numbers.specs.Inverse.{qs, Ns};

mod modulus;

pub use modulus::Modulus;

// Whether q is one of the moduli of a key.
pub fn is_modulus(q: u32) -> bool
    ensures { result ≡ member q qs }
{
    matches!(q, 257 | 65537 | 2147483647)
}

// Whether n is one of the numbers of parties of a key.
pub fn is_parties(n: usize) -> bool
    ensures { result ≡ member n Ns }
{
    matches!(n, 2 | 4 | 8 | 16 | 32)
}
