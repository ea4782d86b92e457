// Ψ and the sum of the outputs.

ghost use Rattle.std.specs.Prelude.{◌≡◌, ◌++◌, ◌+◌, ◌*◌, ◌%◌, ◌<◌, ◌≤◌, eqb, length, get_or};
ghost use Rattle.lists.specs.Bytes.{words};
ghost use Rattle.numbers.specs.Sum.{sum};
ghost use Rattle.sha_core.specs.Fips180.{sha256};
ghost use Rattle.streams.specs.Streams.{block};
ghost use Rattle.protocol.specs.Shares.{input};

use crate::answers;
use execution::commit;
use numbers::Modulus;

// Ψ: the outputs o(1) .. o(N) and block 2e + 1 of the seed κ. They are fed, as the list may have any length; `execution_inputs` writes
// those of N parties. The kind is document 01's number of this hash, as at `begin`.
#[tactic(auto, using(sha::specs::State::fed_join))]
pub fn psi_of(execution: usize, outs: &[u32], kappa: &[u8; 16]) -> [u8; 32]
    requires { execution < 32 }
    ensures { result ≡ sha256 (input 8 (execution + 1) 0 (words outs.now ++ block kappa.now (2 * execution + 1))) }
{
    let mut s = commit::begin(8, execution + 1, 0);
    feed::numbers(&mut s, outs);
    s.update(&streams::block_of(kappa, 2 * execution as u64 + 1));
    s.finish()
}

// Whether the outputs add up to 0 modulo q.
pub fn sum_is_zero(modulus: Modulus, outs: &[u32]) -> bool
    requires { length outs.now ≤ 32 }
    ensures { result ≡ eqb (sum (length outs.now) (λ i. get_or outs.now i 0) % modulus.q) 0 }
{
    modulus.reduced(answers::total(outs)) == 0
}
