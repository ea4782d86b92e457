// What the prover's messages after the first are made from.

ghost use Rattle.std.specs.Prelude.{◌≡◌, ◌+◌, ◌*◌, ◌≤◌, length};
ghost use Rattle.lists.specs.Index.{part};

use key::Numbers;

// What messages 3, 5 and 7 are given beside the key: the master seeds, the secret, E and the seed κ. Nothing compares or prints it.
#[derive(Clone, Copy)]
pub struct Given<'a> {
    pub seeds: &'a [u8],
    pub secret: &'a [u8],
    pub e: &'a [u8],
    pub kappa: &'a [u8],
}

// A key's numbers, and what was given beside the key, of right lengths. Nothing compares or prints it.
#[derive(Clone, Copy)]
pub struct Materials<'a> {
    pub numbers: Numbers,
    pub given: Given<'a>,
    pub ghost seeds_long: { length given.seeds.now ≡ 16 * numbers.executions },
    pub ghost secret_long: { length given.secret.now ≡ numbers.m },
    pub ghost kappa_long: { length given.kappa.now ≡ 16 },
}

// The master seed of execution x, among the master seeds of all.
pub fn master(seeds: &[u8], x: usize) -> &[u8; 16]
    requires { 16 * x + 16 ≤ length seeds.now }
    ensures { result.now ≡ part seeds.now (16 * x) 16 }
{
    let from = 16 * x;
    seeds[from..from + 16].try_into().unwrap()
}
