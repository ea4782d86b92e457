// A sum of many products, each of which fits 64 bits.

ghost use Rattle.std.specs.Prelude.{◌≡◌, ◌+◌, ◌*◌, ◌/◌, ◌%◌, ◌≤◌};
ghost use Rattle.numbers.specs.Residue.{Residue};

use numbers::Modulus;

// The sums of the products' low and high halves.
#[derive(Clone, Copy, Debug, PartialEq, Eq)]
pub struct Halves {
    pub lo: u64,
    pub hi: u64,
}

impl Halves {
    // One more product.
    pub fn add(&mut self, x: u64)
        requires room { (self.old.lo ≤ 549755813760) × (self.old.hi ≤ 549755813760) }
        ensures low { self.new.lo ≡ self.old.lo + x % 4294967296 }
        ensures high { self.new.hi ≡ self.old.hi + x / 4294967296 }
    {
        self.lo += x % 4294967296;
        self.hi += x / 4294967296;
    }

    // The residue of start and the sum. The high half is reduced first, so that the whole fits 64 bits.
    pub fn joined(self, modulus: Modulus, start: u32) -> u32
        requires { self.lo ≤ 1099511627776 }
        ensures { Residue modulus.q ((start + (self.lo + 4294967296 * self.hi)) % modulus.q) result }
    {
        let h = modulus.reduced(self.hi);
        modulus.reduced(u64::from(start) + self.lo + 4294967296 * u64::from(h))
    }
}
