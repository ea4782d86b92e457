// The sheet of a shift (document 02, U1): a line for each run and the numbers of accepted, of refused and of all runs. Texts stand in the
// caller's list, since there is no heap; of a struct of that list as `&mut` and a place each contract would also say that the list is still
// the lent one. Verdicts are numbers, as the sheet is one of any numbers of 32 bits.
#![tactic(auto)]

ghost use Rattle.std.specs.Prelude.{◌≡◌, List, ◌∷◌, [], ◌++◌, ℕ, ◌+◌, ◌*◌, ◌≤◌, ◌<◌, length, take, drop};
ghost use Rattle.lists.specs.Written.{Puts};
ghost use Rattle.line.specs.Line.{decimal};
ghost use Rattle.sheet.specs.Sheet.{name_of, run_line, totals, sheet_of};
ghost use Rattle.sheet.specs.Counted.{Counted};
ghost use Rattle.sheet.specs.Cases.{one_empty_run, no_run};

// The name of run i, counted from 1.
#[tactic(auto, unfolding(crate::specs::Sheet::name_of))]
pub fn name(i: usize) -> [u8; 5]
    requires { i < 100 }
    ensures { result ≡ name_of i }
{
    [
        b'r',
        b'u',
        b'n',
        b'0' + (i / 10) as u8,
        b'0' + (i % 10) as u8,
    ]
}

// A text from a place on; returns its end. `write!` would answer an Err that no contract rules out, and a sheet cannot fail.
fn put_text(text: &[u8], at: usize, out: &mut [u8]) -> usize
    requires { at + length text.now ≤ length out.old }
    ensures { Puts at result text.now out.old out.new }
{
    at + line::put_text(text, &mut out[at..])
}

// A word and behind it a number of at most two digits, from a place on; returns their end.
fn put_number(word: &[u8], n: u32, at: usize, out: &mut [u8]) -> usize
    requires { at + length word.now + 2 ≤ length out.old }
    ensures puts { Puts at result (word.now ++ decimal 2 n) out.old out.new }
    ensures upper_bound { result ≤ at + length word.now + 2 }
{
    let a = put_text(word, at, out);
    a + line::put_decimal(n, 2, &mut out[a..])
}

// The line of run i from a place on; returns its end.
fn put_run(i: usize, number: u32, at: usize, out: &mut [u8]) -> usize
    requires i_bound { i < 100 }
    requires at_in_bounds { at + 25 ≤ length out.old }
    ensures puts { Puts at result (run_line i number) out.old out.new }
    ensures upper_bound { result ≤ at + 25 }
{
    let file = name(i);
    let a = put_text(&file, at, out);
    let b = put_text(b" ", a, out);
    b + line::verdict_line(number, &mut out[b..])
}

// The last line from a place on; returns its end.
fn put_totals(accepted: u32, refused: u32, total: u32, at: usize, out: &mut [u8]) -> usize
    requires { at + 32 ≤ length out.old }
    ensures { Puts at result (totals (decimal 2 accepted) (decimal 2 refused) (decimal 2 total) ++ 10 ∷ []) out.old out.new }
{
    let a = put_number(b"accepted ", accepted, at, out);
    let b = put_number(b" refused ", refused, a, out);
    let c = put_number(b" total ", total, b, out);
    put_text(b"\n", c, out)
}

// The sheet of up to 99 runs in front of a list; returns its length. A run's line has 25 bytes at most, with a number of ten digits, and
// the last line 32. The last clause follows from the others, for callers that take that part of the list.
#[tactic(auto, unfolding(lists::specs::Index::cat))]
pub fn write(verdicts: &[u32], out: &mut [u8]) -> usize
    requires verdicts_len_bound { length verdicts.now ≤ 99 }
    requires verdicts_in_bounds { 25 * length verdicts.now + 32 ≤ length out.old }
    ensures value { result ≡ length (sheet_of verdicts.now) }
    ensures out_after { out.new ≡ sheet_of verdicts.now ++ drop result out.old }
    ensures upper_bound { (result ≤ length out.new) × (result ≡ length (take result out.new)) }
{
    let mut at = 0;
    for (i, number) in verdicts.iter().enumerate() {
        at = put_run(i + 1, *number, at, out);
    }
    let accepted = verdicts.iter().filter(|number| **number == 0).count() as u32;
    let refused = verdicts.iter().filter(|number| **number > 0).count() as u32;
    put_totals(accepted, refused, accepted + refused, at, out)
}

// For the verdicts of up to 99 runs, each number of the sheet's last line is the number of such lines above it; both are read from the
// text.
#[tactic(auto, using(crate::proofs::Lines::sheet_counted))]
pub fn lines_counted()
    ensures { (ns : List ℕ) → length ns ≤ 99 → Counted (sheet_of ns) }
{}

// The sheet of one empty run, which is document 02's example, and that of no run.
pub fn cases()
    ensures sheet_of_value { sheet_of (12 ∷ []) ≡ one_empty_run }
    ensures sheet_of_value_2 { sheet_of [] ≡ no_run }
{}
