// The joined values of an execution, for a key that was read.

ghost use Rattle.std.specs.Prelude.{◌≡◌, ◌*◌, length};

use key::ReadKey;

// b, then d, then s, m numbers each. Nothing compares or prints them.
#[derive(Clone, Copy)]
pub struct Values<'a> {
    pub key: ReadKey<'a>,
    pub sums: &'a [u32],
    pub ghost sums_long: { length sums.now ≡ 3 * key.numbers.m },
}

impl Values<'_> {
    ghost use Rattle.std.specs.Prelude.{◌≡◌, ℕ, ◌+◌, ◌%◌, ◌<◌, ◌≤◌, leb, length, MatchOption};
    ghost use Rattle.lists.specs.Index.{every};
    ghost use Rattle.lists.specs.Tab.{tab};
    ghost use Rattle.numbers.specs.Output.{v_of};
    ghost use Rattle.numbers.specs.Residue.{Residue};
    ghost use Rattle.protocol.specs.Key.{t};
    ghost use Rattle.protocol.specs.Prover.{solves};
    ghost use Rattle.reading.specs.Found.{row_of, s_at, u_at, is_wrong, wrong_at, is_secret, uv_at};
    ghost use Rattle.reading.specs.Keyed.{keyed};

    // s(k).
    fn s(self, k: usize) -> u32
        requires { k < self.key.numbers.m }
        ensures { result ≡ s_at self.entry.key.numbers.m self.entry.sums.now k }
    {
        self.sums[2 * self.key.numbers.m + k]
    }

    // Row l of A times s, modulo q. Beside forms' row_sum, whose numbers are bytes: one over both would take iterators of u32, with a `map`
    // from bytes and from entries at each call, and be as long.
    fn row(self, l: usize) -> u32
        requires { l < self.key.numbers.n }
        ensures { Residue self.entry.key.numbers.modulus.q (row_of (keyed self.entry) self.entry.sums.now l % self.entry.key.numbers.modulus.q) result }
    {
        let m = self.key.numbers.m;
        let modulus = self.key.numbers.modulus;
        let a = &self.key.entries[l * m..][..m];
        a.iter()
            .zip(&self.sums[2 * m..])
            .fold(0, |acc, (&a, &s)| modulus.mul_add(acc, a, s))
    }

    // t(l).
    fn t(self, l: usize) -> u32
        requires { l < self.key.numbers.n }
        ensures { result ≡ t (keyed self.entry) l }
    {
        self.key.entries[self.key.numbers.n * self.key.numbers.m + l]
    }

    // A·s = t modulo q.
    fn is_solution(self) -> bool
        ensures { result ≡ solves (keyed self.entry) (s_at self.entry.key.numbers.m self.entry.sums.now) }
    {
        (0..self.key.numbers.n).all(|l| self.row(l) == self.t(l))
    }

    // Each s(k) is 0 or 1.
    fn is_binary(self) -> bool
        ensures { result ≡ every self.entry.key.numbers.m (λ j. leb (s_at self.entry.key.numbers.m self.entry.sums.now j) 1) }
    {
        crate::are_bits(&self.sums[2 * self.key.numbers.m..])
    }

    // A·s = t, and each s(k) is 0 or 1.
    #[tactic(auto, unfolding(crate::specs::Found::is_secret, protocol::specs::Prover::binary, lists::specs::Index::holds))]
    pub(crate) fn is_secret(self) -> bool
        ensures { result ≡ is_secret (keyed self.entry) self.entry.sums.now }
    {
        self.is_solution() && self.is_binary()
    }

    // d(k) isn't b(k)².
    fn is_wrong(self, k: usize) -> bool
        requires { k < self.key.numbers.m }
        ensures { result ≡ is_wrong self.entry.key.numbers.modulus.q self.entry.key.numbers.m self.entry.sums.now k }
    {
        let b = self.sums[k];
        self.sums[self.key.numbers.m + k] != self.key.numbers.modulus.mul(b, b)
    }

    // The smallest k at which d(k) isn't b(k)².
    pub(crate) fn wrong_square(self) -> Option<usize>
        ensures { MatchOption result (self.entry.key.numbers.m ≤ wrong_at self.entry.key.numbers.modulus.q self.entry.key.numbers.m self.entry.sums.now) (λ k. (k < self.entry.key.numbers.m) × (k ≡ wrong_at self.entry.key.numbers.modulus.q self.entry.key.numbers.m self.entry.sums.now)) }
    {
        (0..self.key.numbers.m).find(|&k| self.is_wrong(k))
    }

    // The secret, once each s(k) is known to be 0 or 1. Its loop and those of `write_u` and `write_v` stay by themselves:
    // these are bytes, where `execution::fill` is of u32, and for u and v this crate would have to stand on that one.
    pub(crate) fn write_bits(self, out: &mut [u8])
        requires binary { (j : ℕ) → j < self.key.numbers.m → s_at self.key.numbers.m self.sums.now j ≤ 1 }
        requires out_long { length out.old ≡ self.key.numbers.m }
        ensures { out.new ≡ tab self.entry.key.numbers.m (s_at self.entry.key.numbers.m self.entry.sums.now) }
    {
        for (j, bit) in out.iter_mut().enumerate() {
            *bit = self.s(j) as u8;
        }
    }

    // u(l) = t(l) - row l of A times s.
    fn u_at(self, l: usize) -> u32
        requires { l < self.key.numbers.n }
        ensures { result ≡ u_at (keyed self.entry) self.entry.sums.now l }
    {
        let modulus = self.key.numbers.modulus;
        modulus.sub(modulus.reduced(u64::from(self.t(l))), self.row(l))
    }

    // v(j) = s(j)² - s(j).
    fn v_at(self, j: usize) -> u32
        requires { j < self.key.numbers.m }
        ensures { result ≡ v_of self.entry.key.numbers.modulus.q (s_at self.entry.key.numbers.m self.entry.sums.now) j }
    {
        let modulus = self.key.numbers.modulus;
        let s = self.s(j);
        modulus.sub(modulus.mul(s, s), modulus.reduced(u64::from(s)))
    }

    // u(1) .. u(n).
    fn write_u(self, out: &mut [u32])
        requires { length out.old ≡ self.key.numbers.n }
        ensures { out.new ≡ tab self.entry.key.numbers.n (u_at (keyed self.entry) self.entry.sums.now) }
    {
        for (l, u) in out.iter_mut().enumerate() {
            *u = self.u_at(l);
        }
    }

    // v(1) .. v(m).
    fn write_v(self, out: &mut [u32])
        requires { length out.old ≡ self.key.numbers.m }
        ensures { out.new ≡ tab self.entry.key.numbers.m (v_of self.entry.key.numbers.modulus.q (s_at self.entry.key.numbers.m self.entry.sums.now)) }
    {
        for (j, v) in out.iter_mut().enumerate() {
            *v = self.v_at(j);
        }
    }

    // u(1) .. u(n), then v(1) .. v(m).
    pub(crate) fn write_errors(self, out: &mut [u32])
        requires { length out.old ≡ self.key.numbers.n + self.key.numbers.m }
        ensures { out.new ≡ uv_at (keyed self.entry) self.entry.sums.now }
    {
        let (u, v) = out.split_at_mut(self.key.numbers.n);
        self.write_u(u);
        self.write_v(v);
    }
}
