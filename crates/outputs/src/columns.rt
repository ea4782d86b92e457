// The outputs of the parties, from the weights of the columns.

ghost use Rattle.std.specs.Prelude.{◌≡◌, ◌+◌, ◌*◌, ◌<◌, length};
ghost use Rattle.lists.specs.Tab.{tab};
ghost use Rattle.numbers.specs.Output.{term_of};
ghost use Rattle.outputs.specs.Steps.{party_of, shown_of};

use crate::Halves;
use execution::{OpenShares, fill};
use numbers::Modulus;

// What the outputs are computed from: the shares and the hidden party's output, a base, and each column's weight, γ and α. Nothing compares
// or prints it.
#[derive(Clone, Copy)]
pub struct Columns<'a, 'w> {
    pub shares: OpenShares<'a>,
    pub given: u32,
    pub base: u32,
    pub weights: &'w [u32],
    pub gammas: &'w [u32],
    pub alphas: &'w [u32],
    pub ghost weights_long: { length weights.now ≡ shares.m },
    pub ghost gammas_long: { length gammas.now ≡ shares.m },
    pub ghost alphas_long: { length alphas.now ≡ shares.m },
}

// One column of a party's output: w s + γ (α (s + b) + d - s), where what γ multiplies is reduced.
#[tactic(auto, using(crate::proofs::Laws::term_done))]
fn term(modulus: Modulus, w: u32, g: u32, a: u32, s: u32, b: u32, d: u32) -> u64
    requires s_lt_q { s < modulus.q }
    requires b_lt_q { b < modulus.q }
    ensures { result ≡ term_of modulus.q w g a s b d }
{
    let y = modulus.reduced(
        u64::from(a) * (u64::from(s) + u64::from(b)) + u64::from(d) + u64::from(modulus.q - s),
    );
    u64::from(w) * u64::from(s) + u64::from(g) * u64::from(y)
}

impl Columns<'_, '_> {
    // The output of a party that is open. Six lists go in step: a zip of them all would be longer than their places.
    fn open_output(self, i: usize) -> u32
        requires i_lt_parties { i < self.shares.parties }
        requires open { i ≡ self.shares.hidden → ⊥ }
        ensures { result ≡ party_of self.entry.shares.modulus.q self.entry.shares.m self.entry.base self.entry.weights.now self.entry.gammas.now self.entry.alphas.now self.entry.shares.work.now i }
    {
        let m = self.shares.m;
        let b = 3 * m * i;
        let d = b + m;
        let s = d + m;
        let work = self.shares.work;
        let mut sum = Halves { lo: 0, hi: 0 };
        for k in 0..m {
            sum.add(term(
                self.shares.modulus,
                self.weights[k],
                self.gammas[k],
                self.alphas[k],
                work[s + k],
                work[b + k],
                work[d + k],
            ));
        }
        sum.joined(self.shares.modulus, self.base)
    }

    // The same for any party: the hidden one's output is given.
    fn output(self, i: usize) -> u32
        requires { i < self.shares.parties }
        ensures { result ≡ shown_of self.entry.shares.modulus.q self.entry.shares.m self.entry.shares.hidden self.entry.given self.entry.base self.entry.weights.now self.entry.gammas.now self.entry.alphas.now self.entry.shares.work.now i }
    {
        if i == self.shares.hidden {
            return self.given;
        }
        self.open_output(i)
    }

    // The outputs of all parties.
    pub fn outputs(self, out: &mut [u32])
        requires { length out.old ≡ self.shares.parties }
        ensures { out.new ≡ tab self.entry.shares.parties (shown_of self.entry.shares.modulus.q self.entry.shares.m self.entry.shares.hidden self.entry.given self.entry.base self.entry.weights.now self.entry.gammas.now self.entry.alphas.now self.entry.shares.work.now) }
    {
        fill(out, |i| self.output(i));
    }
}
