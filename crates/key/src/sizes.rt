// A key's six numbers as code carries them, and the list of its entries, which nothing compares or prints.

ghost use Rattle.std.specs.Prelude.{◌+◌, ◌*◌, ◌≤◌, length};
ghost use Rattle.key.specs.Limits.{Limits, Depth};

use numbers::Modulus;

// q, n, m, N, log2 N, M, τ of a key that is accepted.
#[derive(Clone, Copy, Debug, PartialEq, Eq)]
pub struct Numbers {
    pub modulus: Modulus,
    pub n: usize,
    pub m: usize,
    pub parties: usize,
    pub depth: usize,
    pub executions: usize,
    pub opened: usize,
    pub ghost limits: { Limits modulus.q n m parties executions opened },
    pub ghost deep: { Depth parties depth },
}

// A key that was read: its numbers, and the list of the entries of A and t.
#[derive(Clone, Copy)]
pub struct ReadKey<'a> {
    pub numbers: Numbers,
    pub entries: &'a [u32],
    pub ghost entries_long: { numbers.n * (numbers.m + 1) ≤ length entries.now },
}
