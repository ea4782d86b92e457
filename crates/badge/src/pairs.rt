// The pair reader, with the finding's numbers in a list as well. The parameters are those of the C calls. Work lists have the largest size,
// since there is no heap.

ghost use Rattle.std.specs.Prelude.{◌≡◌, leb, length};
ghost use Rattle.protocol.specs.Pair.{says};
ghost use Rattle.answer.specs.Rows.{row_after};
ghost use Rattle.finding.specs.Reads.{Reads};
ghost use Rattle.pair.specs.Lent.{lengths};
ghost use Rattle.badge.specs.PairCall.{pair_call};

use reading::Finding;
use refusals::Refusal;

// A list for the answer has room for its eight numbers.
fn has_room(answer: &[u32]) -> bool
    ensures { result ≡ leb 8 (length answer.now) }
{
    answer.len() >= 8
}

// What must lie behind two transcripts, over lent lists.
pub fn badge_pair_lent(
    key: &[u8],
    run1: &[u8],
    run2: &[u8],
    hash1: &mut [u8],
    hash2: &mut [u8],
    secret: &mut [u8],
    uv: &mut [u32],
    answer: &mut [u32],
    entries: &mut [u32],
    work: &mut [u32],
) -> Result<Finding, Refusal>
    ensures reads { Reads (pair_call (length answer.old) key.now (lengths (length hash1.old) (length hash2.old) (length secret.old) (length uv.old) (length entries.old) (length work.old)) run1.now run2.now) result hash1.old hash1.new hash2.old hash2.new secret.old secret.new uv.old uv.new }
    ensures answer_after { answer.new ≡ row_after (says (pair_call (length answer.old) key.now (lengths (length hash1.old) (length hash2.old) (length secret.old) (length uv.old) (length entries.old) (length work.old)) run1.now run2.now)) answer.old }
{
    if !has_room(answer) {
        key::read(key)?;
        return Err(Refusal::Room);
    }
    let r = pair::reader::pair(key, run1, run2, hash1, hash2, secret, uv, entries, work);
    answer::write_row(r, answer);
    r
}

// What must lie behind two transcripts; both work lists are its own.
pub fn badge_pair(
    key: &[u8],
    run1: &[u8],
    run2: &[u8],
    hash1: &mut [u8],
    hash2: &mut [u8],
    secret: &mut [u8],
    uv: &mut [u32],
    answer: &mut [u32],
) -> Result<Finding, Refusal>
    ensures reads { Reads (pair_call (length answer.old) key.now (lengths (length hash1.old) (length hash2.old) (length secret.old) (length uv.old) 4128 16384) run1.now run2.now) result hash1.old hash1.new hash2.old hash2.new secret.old secret.new uv.old uv.new }
    ensures answer_after { answer.new ≡ row_after (says (pair_call (length answer.old) key.now (lengths (length hash1.old) (length hash2.old) (length secret.old) (length uv.old) 4128 16384) run1.now run2.now)) answer.old }
{
    let mut entries = [0u32; 4128];
    let mut work = [0u32; 16384];
    badge_pair_lent(
        key,
        run1,
        run2,
        hash1,
        hash2,
        secret,
        uv,
        answer,
        &mut entries,
        &mut work,
    )
}
