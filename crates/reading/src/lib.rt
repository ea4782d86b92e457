// What the pair reader makes of the joined values of an execution (document 01, Pair reader, findings 2 to 4).
#![tactic(auto)]

mod values;

ghost use Rattle.std.specs.Prelude.{◌≡◌, ◌+◌, ◌<◌, ◌≤◌, leb, length, get_or};
ghost use Rattle.lists.specs.Index.{every};
ghost use Rattle.reading.specs.Found.{Finds, found};
ghost use Rattle.reading.specs.Keyed.{keyed};

use compare::Kind;
pub use values::Values;

// What two transcripts give: a collision, the secret, a column whose square is wrong, or a list of errors. Executions, parties and
// columns count from 1; a collision of all parties' inputs together has none.
#[derive(Clone, Copy, Debug, PartialEq, Eq)]
pub enum Finding {
    Collision {
        kind: Kind,
        execution: usize,
        party: Option<usize>,
        length: usize,
    },
    Secret,
    Square {
        execution: usize,
        column: usize,
        b: u32,
        d: u32,
    },
    Errors {
        execution: usize,
    },
}

// Each number is 0 or 1. `forms::at_most` tests bytes so: a line each.
fn are_bits(xs: &[u32]) -> bool
    ensures { result ≡ every (length xs.now) (λ j. leb (get_or xs.now j 0) 1) }
{
    xs.iter().all(|&x| x <= 1)
}

// Finding 2, 3 or 4 from the joined values of execution e, counted from 0. The secret, or u and v, stand in front of a list that C lent and
// that may be longer.
pub fn read_values(values: Values, e: usize, secret: &mut [u8], uv: &mut [u32]) -> Finding
    requires secret_long { values.key.numbers.m ≤ length secret.old }
    requires uv_long { values.key.numbers.n + values.key.numbers.m ≤ length uv.old }
    requires e_bound { e < 32 }
    ensures { Finds (found (keyed values.entry) e values.entry.sums.now) (Ok result) secret.old secret.new uv.old uv.new }
{
    let m = values.key.numbers.m;
    if values.is_secret() {
        values.write_bits(&mut secret[..m]);
        return Finding::Secret;
    }
    if let Some(w) = values.wrong_square() {
        return Finding::Square {
            execution: e + 1,
            column: w + 1,
            b: values.sums[w],
            d: values.sums[m + w],
        };
    }
    let count = values.key.numbers.n + m;
    values.write_errors(&mut uv[..count]);
    Finding::Errors { execution: e + 1 }
}
