// What the prover's calls are refused for (document 01, "Where each number is given").

ghost use Rattle.std.specs.Prelude.{◌≡◌, List, ℕ, ◌+◌, ◌*◌, ◌-◌, ◌≤◌, ◌<◌, length};
ghost use Rattle.lists.specs.Check.{first};
ghost use Rattle.refusals.specs.Refused.{verdict_of};
ghost use Rattle.protocol.specs.Key.{Key, key_of};
ghost use Rattle.protocol.specs.Prover.{checks1, checks3, checks5, checks7, statement_checks};
ghost use Rattle.key.specs.Numbers.{Read};
ghost use Rattle.prover.specs.Parts.{SizedInputs};

use crate::Given;
use forms::{good_hidden, good_opened, is_binary, is_solution};
use key::Numbers;
use refusals::Refusal;

// 6 of message 1.
#[tactic(auto, using(crate::proofs::Laws::seeds_wrong, crate::proofs::Laws::seeds_right))]
pub fn inputs_1(executions: usize, seeds: &[u8]) -> Result<(), Refusal>
    requires { executions ≤ 32 }
    ensures { (K : Key) → K.M ≡ executions → verdict_of result ≡ first (checks1 K seeds.now) }
{
    if seeds.len() != 16 * executions {
        return Err(Refusal::InputLength);
    }
    Ok(())
}

// The master seeds, the secret and κ have their lengths.
#[tactic(auto, using(crate::proofs::Laws::sized_1, crate::proofs::Laws::sized_2, crate::proofs::Laws::sized_3))]
fn sized(k: Numbers, given: Given) -> bool
    ensures { SizedInputs k.m k.executions given.entry.seeds.now given.entry.secret.now given.entry.kappa.now result }
{
    given.seeds.len() == 16 * k.executions && given.secret.len() == k.m && given.kappa.len() == 16
}

// 7, 8 and 9: E and the secret.
fn statement(key: &[u8], k: Numbers, secret: &[u8], e: &[u8]) -> Result<(), Refusal>
    requires read { Read key.now k }
    requires secret_long { length secret.now ≡ k.m }
    ensures { (seeds κ : List ℕ) → verdict_of result ≡ first (statement_checks (key_of key.now) seeds secret.now e.now κ) }
{
    if !good_opened(e, k.opened, k.executions) {
        return Err(Refusal::OpenedList);
    }
    if !is_binary(secret) {
        return Err(Refusal::SecretEntry);
    }
    if !is_solution(key, k, secret) {
        return Err(Refusal::SecretImage);
    }
    Ok(())
}

// 6 to 9 of message 3.
pub fn inputs_3(key: &[u8], k: Numbers, given: Given) -> Result<(), Refusal>
    requires { Read key.now k }
    ensures { verdict_of result ≡ first (checks3 (key_of key.now) given.entry.seeds.now given.entry.secret.now given.entry.e.now given.entry.kappa.now) }
{
    if !sized(k, given) {
        return Err(Refusal::InputLength);
    }
    statement(key, k, given.secret, given.e)
}

// 6 to 9 of messages 5 and 7.
#[tactic(auto, using(crate::proofs::Laws::inputs5_seed, crate::proofs::Laws::inputs5_rest))]
pub fn inputs_5(key: &[u8], k: Numbers, given: Given, seed: &[u8]) -> Result<(), Refusal>
    requires { Read key.now k }
    ensures { verdict_of result ≡ first (checks5 (key_of key.now) given.entry.seeds.now given.entry.secret.now given.entry.e.now given.entry.kappa.now seed.now) }
{
    if seed.len() != 16 {
        return Err(Refusal::InputLength);
    }
    inputs_3(key, k, given)
}

// 6 to 10 of message 7.
pub fn inputs_7(
    key: &[u8],
    k: Numbers,
    given: Given,
    seed: &[u8],
    hidden: &[u8],
) -> Result<(), Refusal>
    requires { Read key.now k }
    ensures { verdict_of result ≡ first (checks7 (key_of key.now) given.entry.seeds.now given.entry.secret.now given.entry.e.now given.entry.kappa.now seed.now hidden.now) }
{
    inputs_5(key, k, given, seed)?;
    if !good_hidden(hidden, k.executions - k.opened, k.parties) {
        return Err(Refusal::HiddenList);
    }
    Ok(())
}

// How many bytes message 3 has; `transcript::sizes` has the same line among the lengths of the parts.
pub fn size_3(opened: usize, executions: usize) -> usize
    requires opened_lt_executions { opened < executions }
    requires executions_bound { executions ≤ 32 }
    ensures { (result ≡ 16 * opened + 32 * (executions - opened) + 32) × (result ≤ 2000) }
{
    16 * opened + 32 * (executions - opened) + 32
}
