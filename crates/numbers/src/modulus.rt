// A modulus of a key, and what is computed by it.

ghost use Rattle.std.specs.Prelude.{◌≡◌, ◌+◌, ◌*◌, ◌%◌, ◌<◌, IfSome, is_some};
ghost use Rattle.lists.specs.Index.{member};
ghost use Rattle.numbers.specs.Mod.{sub};
ghost use Rattle.numbers.specs.Inverse.{Member, qs, Ns, inverse_of};
ghost use Rattle.numbers.specs.Residue.{Residue};

use crate::is_modulus;

// One of the three primes q.
#[derive(Clone, Copy, Debug, PartialEq, Eq)]
pub struct Modulus {
    pub q: u32,
    pub ghost listed: { Member q qs },
}

impl Modulus {
    // q, if it is one of the three.
    pub fn new(q: u32) -> Option<Modulus>
        ensures listed { is_some result ≡ member q qs }
        ensures value { IfSome result (λ m. m.q ≡ q) }
    {
        if !is_modulus(q) {
            return None;
        }
        Some(Modulus { q })
    }

    // x modulo q. There is an arm for each q, so that the remainders are by constants.
    pub fn reduced(self, x: u64) -> u32
        ensures { Residue self.q (x % self.q) result }
    {
        let r = match self.q {
            257 => x % 257,
            65537 => x % 65537,
            _ => x % 2147483647,
        };
        r as u32
    }

    // a - b modulo q.
    pub fn sub(self, a: u32, b: u32) -> u32
        requires a_lt_q { a < self.q }
        requires b_lt_q { b < self.q }
        ensures { Residue self.q (sub self.q a b) result }
    {
        if b <= a {
            return a - b;
        }
        a + (self.q - b)
    }

    // a * b modulo q.
    pub fn mul(self, a: u32, b: u32) -> u32
        ensures { Residue self.q ((a * b) % self.q) result }
    {
        self.reduced(u64::from(a) * u64::from(b))
    }

    // acc + a * b modulo q: one turn of a sum of products.
    pub fn mul_add(self, acc: u32, a: u32, b: u32) -> u32
        ensures { Residue self.q ((acc + a * b) % self.q) result }
    {
        self.reduced(u64::from(acc) + u64::from(a) * u64::from(b))
    }

    // The inverse of n modulo q.
    pub fn inverse_of(self, n: u32) -> u32
        requires { Member n Ns }
        ensures { Residue self.q (inverse_of self.q n) result }
    {
        if self.q % n == 1 {
            return self.q - self.q / n;
        }
        self.q / n + 1
    }
}
