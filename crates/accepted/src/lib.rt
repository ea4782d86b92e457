// Two transcripts judged for one key that was read (document 01, Pair reader, 20 to 23).
#![tactic(auto)]

ghost use Rattle.std.specs.Prelude.{◌≡◌, ◌*◌, ◌-◌, ◌≤◌, length, OnOk};
ghost use Rattle.lists.specs.Check.{first};
ghost use Rattle.refusals.specs.Refused.{verdict_of};
ghost use Rattle.protocol.specs.Transcript.{parts_of};
ghost use Rattle.key.specs.Numbers.{key_with};
ghost use Rattle.walk.specs.Lists.{lists_size, Listed};
ghost use Rattle.judge.specs.Lists.{run_lists};
ghost use Rattle.accepted.specs.Forks.{fork_checks, second_lists};

use judge::run;
use key::ReadKey;
use refusals::Refusal;

// The first number that applies to two transcripts. Where there is none, each list has the inputs of a transcript's list hashes. Each list
// is a parameter of its own: of a struct that holds it as `&mut` the contract would also say that it is still the lent one.
pub fn check(
    key: ReadKey,
    run1: &[u8],
    run2: &[u8],
    lists1: &mut [u8],
    lists2: &mut [u8],
    work: &mut [u32],
) -> Result<(), Refusal>
    requires lists1_long { length lists1.old ≡ lists_size key.numbers.executions (key.numbers.executions - key.numbers.opened) }
    requires lists2_long { length lists2.old ≡ lists_size key.numbers.executions (key.numbers.executions - key.numbers.opened) }
    requires work_long { 3 * key.numbers.m * key.numbers.parties ≤ length work.old }
    ensures verdict { verdict_of result ≡ first (fork_checks (key_with key.entry.numbers key.entry.entries.now) run1.now run2.now) }
    ensures listed_1 { OnOk result (Listed (key_with key.entry.numbers key.entry.entries.now) (parts_of run1.now) lists1.new) }
    ensures listed_2 { OnOk result (Listed (key_with key.entry.numbers key.entry.entries.now) (parts_of run2.now) lists2.new) }
    ensures lists1_after { lists1.new ≡ run_lists (key_with key.entry.numbers key.entry.entries.now) run1.now lists1.old }
    ensures lists2_after { lists2.new ≡ second_lists (key_with key.entry.numbers key.entry.entries.now) run1.now run2.now lists2.old }
    ensures work_len_unchanged { length work.new ≡ length work.old }
{
    run::judge_run(key, run1, lists1, work).map_err(|_| Refusal::FirstRun)?;
    run::judge_run(key, run2, lists2, work).map_err(|_| Refusal::SecondRun)?;
    let parts1 = transcript::split(key.numbers, run1);
    let parts2 = transcript::split(key.numbers, run2);
    if !fork::same_front(parts1, parts2) {
        return Err(Refusal::FrontsDiffer);
    }
    if fork::same_hidden(parts1, parts2) {
        return Err(Refusal::HiddenEqual);
    }
    Ok(())
}
