// The calls' answers as numbers for C: one number for each, and the row of eight for a finding.
#![tactic(auto)]

pub mod code;

ghost use Rattle.std.specs.Prelude.{◌≡◌, ◌≤◌, ◌++◌, List, ℕ, length, drop};
ghost use Rattle.reading.specs.Answers.{means};
ghost use Rattle.answer.specs.Rows.{row_after, Narrow};

use reading::Finding;
use refusals::Refusal;

// The eight numbers of a finding.
fn row(finding: Finding) -> [u32; 8]
    requires { Narrow (means (Ok finding)) }
    ensures { (before : List ℕ) → result ++ drop 8 before ≡ row_after (means (Ok finding)) before }
{
    match finding {
        Finding::Collision {
            kind,
            execution,
            party,
            length,
        } => {
            [
                kind.number(),
                execution as u32,
                party.unwrap_or(0) as u32,
                length as u32,
                0,
                0,
                0,
                0,
            ]
        }
        Finding::Secret => [0; 8],
        Finding::Square {
            execution,
            column,
            b,
            d,
        } => { [0, execution as u32, 0, 0, column as u32, b, d, 0] }
        Finding::Errors { execution } => [0, execution as u32, 0, 0, 0, 0, 0, 0],
    }
}

// The eight numbers of a finding to the front of the list that C lends; a refusal leaves it as it is.
pub fn write_row(r: Result<Finding, Refusal>, answer: &mut [u32])
    requires in_bounds { 8 ≤ length answer.old }
    requires narrow { Narrow (means r) }
    ensures { answer.new ≡ row_after (means r) answer.old }
{
    if let Ok(finding) = r {
        answer[..8].copy_from_slice(&row(finding));
    }
}
