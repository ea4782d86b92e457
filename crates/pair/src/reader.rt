// The pair reader on two transcripts and on a key's bytes. The four outputs are parameters of their own: of a struct that holds them as
// `&mut` each contract would also say that every list is still the lent one.

ghost use Rattle.std.specs.Prelude.{◌+◌, ◌*◌, ◌≤◌, length};
ghost use Rattle.lists.specs.Check.{first};
ghost use Rattle.protocol.specs.Transcript.{parts_of};
ghost use Rattle.protocol.specs.Pair.{finding, read_of, pair};
ghost use Rattle.protocol.specs.Accepts.{GoodKey};
ghost use Rattle.key.specs.Numbers.{key_with};
ghost use Rattle.walk.specs.Lists.{Listed};
ghost use Rattle.accepted.specs.Forks.{fork_checks};
ghost use Rattle.finding.specs.Reads.{Reads};
ghost use Rattle.pair.specs.Forks.{Forks};
ghost use Rattle.pair.specs.Lent.{lengths};

use crate::place::{Lent, locate, room};
use crate::sides::open_both;
use compare::Side;
use key::ReadKey;
use reading::{Finding, Values};
use refusals::Refusal;

// A transcript, and the inputs of its list hashes. Nothing compares or prints it.
#[derive(Clone, Copy)]
struct Judged<'a> {
    run: &'a [u8],
    lists: &'a [u8],
}

// The finding of two transcripts that fork. Here and in `read_runs` lists have the largest size and are cut, since there is no heap.
fn read_fork(
    key: ReadKey,
    one: Judged,
    two: Judged,
    hash1: &mut [u8],
    hash2: &mut [u8],
    secret: &mut [u8],
    uv: &mut [u32],
    work: &mut [u32],
) -> Finding
    requires forks { Forks (key_with key.numbers key.entries.now) one.run.now two.run.now }
    requires listed { Listed (key_with key.numbers key.entries.now) (parts_of one.run.now) one.lists.now }
    requires listed_2 { Listed (key_with key.numbers key.entries.now) (parts_of two.run.now) two.lists.now }
    requires hash1_long { 16400 ≤ length hash1.old }
    requires hash2_long { 16400 ≤ length hash2.old }
    requires secret_long { key.numbers.m ≤ length secret.old }
    requires uv_long { key.numbers.n + key.numbers.m ≤ length uv.old }
    requires work_long { 3 * key.numbers.m * key.numbers.parties ≤ length work.old }
    ensures { Reads (finding (key_with key.entry.numbers key.entry.entries.now) (parts_of one.entry.run.now) (parts_of two.entry.run.now)) (Ok result) hash1.old hash1.new hash2.old hash2.new secret.old secret.new uv.old uv.new }
{
    let m = key.numbers.m;
    let parties = key.numbers.parties;
    let place = locate(key, one.run, two.run);
    let size = 68 * parties + 8 * m + 4 * m * parties + 48;
    let mut inputs1 = [0u8; 19632];
    let mut inputs2 = [0u8; 19632];
    let mut sums = [0u32; 384];
    let inputs1 = &mut inputs1[..size];
    let inputs2 = &mut inputs2[..size];
    let sums = &mut sums[..3 * m];
    open_both(key, place, one.run, two.run, inputs1, inputs2, sums, work);
    let values = Values { key, sums };
    let one = Side {
        hidden: place.hidden1,
        lists: one.lists,
        inputs: inputs1,
    };
    let two = Side {
        hidden: place.hidden2,
        lists: two.lists,
        inputs: inputs2,
    };
    finding::find(values, place.execution, one, two, hash1, hash2, secret, uv)
}

// The answer for a key that was read. The two transcripts are the C call's. The size of the lists is one expression, as in judge: a
// function for it would be no plainer.
fn read_runs(
    key: ReadKey,
    run1: &[u8],
    run2: &[u8],
    hash1: &mut [u8],
    hash2: &mut [u8],
    secret: &mut [u8],
    uv: &mut [u32],
    work: &mut [u32],
) -> Result<Finding, Refusal>
    requires good_key { GoodKey (key_with key.numbers key.entries.now) }
    requires hash1_long { 16400 ≤ length hash1.old }
    requires hash2_long { 16400 ≤ length hash2.old }
    requires secret_long { key.numbers.m ≤ length secret.old }
    requires uv_long { key.numbers.n + key.numbers.m ≤ length uv.old }
    requires work_long { 3 * key.numbers.m * key.numbers.parties ≤ length work.old }
    ensures { Reads (read_of (first (fork_checks (key_with key.entry.numbers key.entry.entries.now) run1.now run2.now)) (finding (key_with key.entry.numbers key.entry.entries.now) (parts_of run1.now) (parts_of run2.now))) result hash1.old hash1.new hash2.old hash2.new secret.old secret.new uv.old uv.new }
{
    let k = key.numbers;
    let size = 32 * k.executions + 64 * (k.executions - k.opened);
    let mut lists1 = [0u8; 3072];
    let mut lists2 = [0u8; 3072];
    let lists1 = &mut lists1[..size];
    let lists2 = &mut lists2[..size];
    accepted::check(key, run1, run2, lists1, lists2, work)?;
    let one = Judged {
        run: run1,
        lists: lists1,
    };
    let two = Judged {
        run: run2,
        lists: lists2,
    };
    Ok(read_fork(key, one, two, hash1, hash2, secret, uv, work))
}

// What must lie behind two transcripts, with lent lists for the outputs, for A and t and for the executions; or why nothing is read. The
// parameters are those of the call in C. Judge reads the key by the same calls, around a test of room of its own.
pub fn pair(
    key: &[u8],
    run1: &[u8],
    run2: &[u8],
    hash1: &mut [u8],
    hash2: &mut [u8],
    secret: &mut [u8],
    uv: &mut [u32],
    entries: &mut [u32],
    work: &mut [u32],
) -> Result<Finding, Refusal>
    ensures { Reads (pair key.now (lengths (length hash1.old) (length hash2.old) (length secret.old) (length uv.old) (length entries.old) (length work.old)) run1.now run2.now) result hash1.old hash1.new hash2.old hash2.new secret.old secret.new uv.old uv.new }
{
    let k = key::read(key)?;
    let lent = Lent {
        hash1: hash1.len(),
        hash2: hash2.len(),
        secret: secret.len(),
        uv: uv.len(),
        entries: entries.len(),
        work: work.len(),
    };
    if !room(k, lent) {
        return Err(Refusal::Room);
    }
    key::entries(key, entries);
    let count = key::entry_count(k.n, k.m);
    let read = ReadKey {
        numbers: k,
        entries: &entries[..count],
    };
    read_runs(read, run1, run2, hash1, hash2, secret, uv, work)
}
