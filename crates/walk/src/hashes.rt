// All executions of a transcript in turn, and the inputs of the three hashes over them.

ghost use Rattle.std.specs.Prelude.{◌≡◌, ◌*◌, ◌-◌, ◌≤◌, length};
ghost use Rattle.lists.specs.Check.{first};
ghost use Rattle.refusals.specs.Refused.{verdict_of};
ghost use Rattle.protocol.specs.Key.{Key};
ghost use Rattle.protocol.specs.Transcript.{Parts};
ghost use Rattle.walk.specs.Lists.{lists_size};
ghost use Rattle.walk.specs.Walk.{Walked, hash_tests};
ghost use Rattle.walk.specs.Runs.{Stands};

use crate::Run;
use crate::round::{self, Place};
use refusals::Refusal;

// Every execution in turn: the first refusal, or the inputs of the three list hashes.
pub fn walk(run: Run, lists: &mut [u8], work: &mut [u32]) -> Result<(), Refusal>
    requires lists_long { length lists.old ≡ lists_size run.executions (run.executions - run.openings) }
    requires work_long { 3 * run.statement.m * run.statement.parties ≤ length work.old }
    ensures walked { (K : Key) (P : Parts) → Stands run.entry K P → Walked K P (verdict_of result) lists.old lists.new }
    ensures lists_len_unchanged { length lists.new ≡ length lists.old }
    ensures work_len_unchanged { length work.new ≡ length work.old }
{
    let mut here = Place { rank: 0, at: 16 };
    for e in 0..run.executions {
        here = round::round(run, e, here, lists, work)?;
    }
    Ok(())
}

// hΓ, hπ and hψ are the given ones.
#[tactic(auto, unfolding(lists::specs::Check::first))]
pub fn check_hashes(
    p1: &[u8],
    gamma: &[u8],
    given: &[u8],
    pi: &[u8],
    p5: &[u8],
    psi: &[u8],
) -> Result<(), Refusal>
    ensures { verdict_of result ≡ first (hash_tests p1.now gamma.now given.now pi.now p5.now psi.now) }
{
    if !bytes4::same_bytes(p1, gamma) {
        return Err(Refusal::HGamma);
    }
    if !bytes4::same_bytes(given, pi) {
        return Err(Refusal::HPi);
    }
    if !bytes4::same_bytes(p5, psi) {
        return Err(Refusal::HPsi);
    }
    Ok(())
}
