// The lists that a call is lent, by their lengths.

ghost use Rattle.std.specs.Prelude.{◌≡◌, List, ℕ, ◌≤◌, length};
ghost use Rattle.lists.specs.Check.{first};
ghost use Rattle.refusals.specs.Refused.{verdict_of};
ghost use Rattle.protocol.specs.Key.{Key};
ghost use Rattle.protocol.specs.Prover.{lent_checks};

use refusals::Refusal;

// The output's length, the place in it from which on a message is written, and the lengths of both work lists: the lists themselves are
// lent on to the message once they are long enough. Other calls lend other lists, so each has a test of its own.
#[derive(Clone, Copy, Debug, PartialEq, Eq)]
pub struct Lent {
    pub size: usize,
    pub place: usize,
    pub work: usize,
    pub entries: usize,
}

impl Lent {
    // 11: the place, the output and both work lists, for a message of `count` bytes.
    #[tactic(auto, using(crate::proofs::Laws::lent_place, crate::proofs::Laws::lent_long, crate::proofs::Laws::lent_work, crate::proofs::Laws::lent_entries, crate::proofs::Laws::lent_none))]
    pub fn check(self, n: usize, m: usize, parties: usize, count: usize) -> Result<(), Refusal>
        requires { (n ≤ 32) × (m ≤ 128) × (parties ≤ 32) }
        ensures { (K : Key) (message : List ℕ) → K.n ≡ n → K.m ≡ m → K.N ≡ parties → length message ≡ count → verdict_of result ≡ first (lent_checks K message self.size self.place self.work self.entries) }
    {
        if self.place > self.size {
            return Err(Refusal::Room);
        }
        if count > self.size - self.place {
            return Err(Refusal::Room);
        }
        if 4 * m * parties > self.work {
            return Err(Refusal::Room);
        }
        if n * (m + 1) > self.entries {
            return Err(Refusal::Room);
        }
        Ok(())
    }
}
