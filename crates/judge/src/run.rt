// The judge on a transcript's file and on a key's bytes.

ghost use Rattle.std.specs.Prelude.{◌≡◌, ◌*◌, ◌-◌, ◌≤◌, length, OnOk};
ghost use Rattle.lists.specs.Check.{first};
ghost use Rattle.refusals.specs.Refused.{verdict_of};
ghost use Rattle.protocol.specs.Transcript.{parts_of};
ghost use Rattle.protocol.specs.Judge.{run_checks, judge_lent};
ghost use Rattle.key.specs.Numbers.{key_with};
ghost use Rattle.walk.specs.Lists.{lists_size, Listed};
ghost use Rattle.judge.specs.Lists.{run_lists};

use crate::parts;
use key::ReadKey;
use refusals::Refusal;

// The first number that applies to a file, for a key that was read. Where there is none, `lists` has the inputs of the three list hashes.
pub fn judge_run(
    key: ReadKey,
    run: &[u8],
    lists: &mut [u8],
    work: &mut [u32],
) -> Result<(), Refusal>
    requires lists_long { length lists.old ≡ lists_size key.numbers.executions (key.numbers.executions - key.numbers.opened) }
    requires work_long { 3 * key.numbers.m * key.numbers.parties ≤ length work.old }
    ensures verdict { verdict_of result ≡ first (run_checks (key_with key.entry.numbers key.entry.entries.now) run.now) }
    ensures listed { OnOk result (Listed (key_with key.entry.numbers key.entry.entries.now) (parts_of run.now) lists.new) }
    ensures lists_after { lists.new ≡ run_lists (key_with key.entry.numbers key.entry.entries.now) run.now lists.old }
    ensures work_len_unchanged { length work.new ≡ length work.old }
{
    let k = key.numbers;
    if !transcript::good_header(run, k) {
        return Err(Refusal::Header);
    }
    parts::judge_parts(key, transcript::split(k, run), lists, work)
}

// The first number that applies to a key and a file, with lent lists for the executions and for A and t.
pub fn judge(key: &[u8], run: &[u8], entries: &mut [u32], work: &mut [u32]) -> Result<(), Refusal>
    ensures { verdict_of result ≡ judge_lent key.now (length work.old) (length entries.old) run.now }
{
    let numbers = key::read(key)?;
    let count = key::entry_count(numbers.n, numbers.m);
    // Two lists are lent, where a prover's call is lent an output too and a pair four more: each tests its own. `pair` opens its key in
    // the same steps; this test stands between them, so one function for both would take it as a closure.
    if work.len() < 4 * numbers.m * numbers.parties {
        return Err(Refusal::Room);
    }
    if entries.len() < count {
        return Err(Refusal::Room);
    }
    key::entries(key, entries);
    let read = ReadKey {
        numbers,
        entries: &entries[..count],
    };
    // No heap: room for the most executions, lent from here on.
    let mut lists = [0; 3072];
    // The length that `judge_run` asks for; `pair` has the same line for its two lists.
    let size = 32 * numbers.executions + 64 * (numbers.executions - numbers.opened);
    judge_run(read, run, &mut lists[..size], work)
}
