// The judge on the seven parts of a transcript.

ghost use Rattle.std.specs.Prelude.{◌≡◌, ◌+◌, ◌*◌, ◌-◌, ◌≤◌, length, OnOk};
ghost use Rattle.lists.specs.Index.{part};
ghost use Rattle.lists.specs.Check.{first};
ghost use Rattle.sha_core.specs.Fips180.{sha256};
ghost use Rattle.refusals.specs.Refused.{verdict_of};
ghost use Rattle.protocol.specs.Judge.{parts_checks};
ghost use Rattle.key.specs.Numbers.{key_with};
ghost use Rattle.transcript.specs.Seen.{seen};
ghost use Rattle.walk.specs.Lists.{hπ_from, hψ_from, lists_size, Listed};
ghost use Rattle.walk.specs.Walk.{hash_tests};
ghost use Rattle.judge.specs.Lists.{parts_lists};

use execution::Statement;
use key::{Numbers, ReadKey};
use refusals::Refusal;
use transcript::FileParts;
use walk::{Run, hashes};

// The three list hashes, from their inputs, are the given ones.
fn check_lists(
    executions: usize,
    kept: usize,
    p1: &[u8],
    given: &[u8],
    p5: &[u8],
    lists: &[u8],
) -> Result<(), Refusal>
    requires counts { (executions ≤ 32) × (kept ≤ 32) }
    requires lists_long { length lists.now ≡ lists_size executions kept }
    ensures { verdict_of result ≡ first (hash_tests p1.now (sha256 (part lists.now 0 (32 * executions))) given.now (sha256 (part lists.now (hπ_from executions) (32 * kept))) p5.now (sha256 (part lists.now (hψ_from executions kept) (32 * kept)))) }
{
    let (gamma, rest) = lists.split_at(32 * executions);
    let (pi, psi) = rest.split_at(32 * kept);
    hashes::check_hashes(
        p1,
        &sha::hash(gamma),
        given,
        &sha::hash(pi),
        p5,
        &sha::hash(psi),
    )
}

// The first number that applies to the parts, whose first six lengths are right. Where there is none, `lists` has the inputs of the
// three list hashes.
pub fn judge_parts(
    key: ReadKey,
    parts: FileParts,
    lists: &mut [u8],
    work: &mut [u32],
) -> Result<(), Refusal>
    requires p3_long { length parts.p3.now ≡ 16 * key.numbers.opened + 32 * (key.numbers.executions - key.numbers.opened) + 32 }
    requires p4_long { length parts.p4.now ≡ 16 }
    requires lists_long { length lists.old ≡ lists_size key.numbers.executions (key.numbers.executions - key.numbers.opened) }
    requires work_long { 3 * key.numbers.m * key.numbers.parties ≤ length work.old }
    ensures verdict { verdict_of result ≡ first (parts_checks (key_with key.entry.numbers key.entry.entries.now) (seen parts.entry)) }
    ensures listed { OnOk result (Listed (key_with key.entry.numbers key.entry.entries.now) (seen parts.entry) lists.new) }
    ensures lists_after { lists.new ≡ parts_lists (key_with key.entry.numbers key.entry.entries.now) (seen parts.entry) lists.old }
    ensures work_len_unchanged { length work.new ≡ length work.old }
{
    let k = key.numbers;
    transcript::check_parts(k, parts.p2, parts.p6, parts.p7)?;
    let Numbers {
        modulus,
        n,
        m,
        parties,
        depth,
        executions,
        opened,
        ..
    } = k;
    let statement = Statement {
        modulus,
        n,
        m,
        parties,
        depth,
        entries: key.entries,
    };
    let run = Run {
        statement,
        executions,
        openings: opened,
        parts,
    };
    hashes::walk(run, lists, work)?;
    let kept = executions - opened;
    let from = 16 * opened + 32 * kept;
    check_lists(
        executions,
        kept,
        parts.p1,
        &parts.p3[from..from + 32],
        parts.p5,
        lists,
    )
}
