// The calls' answers as one number, which is what C gets. No From: a Result is std's type, and an own type for each would be no plainer.
// Each clause says beside the number that it fits 64 bits, as C has to know.

ghost use Rattle.std.specs.Prelude.{◌≡◌, ◌≤◌, pos, neg_ℤ};
ghost use Rattle.std.specs.Int.{w64};
ghost use Rattle.std.proofs.Common.{SFits};
ghost use Rattle.refusals.specs.Number.{number_of};
ghost use Rattle.refusals.specs.Refused.{number, verdict_of};
ghost use Rattle.prover.specs.Answers.{said};
ghost use Rattle.reading.specs.Answers.{means};
ghost use Rattle.answer.specs.Codes.{code_of, length_of, finding_code};

use reading::Finding;
use refusals::Refusal;

// Minus a refusal's number.
pub fn refusal_code(r: Refusal) -> i64
    ensures { (result ≡ neg_ℤ (pos (number r))) × SFits w64 result }
{
    -(r.number() as i64)
}

// 0 where a judge accepts, or the refusal's number.
pub fn verdict_code(verdict: Result<(), Refusal>) -> u32
    ensures { result ≡ number_of (verdict_of verdict) }
{
    match verdict {
        Ok(()) => 0,
        Err(r) => r.number(),
    }
}

// The length, or minus the refusal's number.
pub fn code(answer: Result<usize, Refusal>) -> i64
    requires { length_of (said answer) ≤ 100000 }
    ensures { (result ≡ code_of (said answer)) × SFits w64 result }
{
    match answer {
        Ok(n) => n as i64,
        Err(r) => refusal_code(r),
    }
}

// The finding's number, or minus the refusal's.
pub fn finding_code(r: Result<Finding, Refusal>) -> i64
    ensures { (result ≡ finding_code (means r)) × SFits w64 result }
{
    match r {
        Ok(Finding::Collision { .. }) => 1,
        Ok(Finding::Secret) => 2,
        Ok(Finding::Square { .. }) => 3,
        Ok(Finding::Errors { .. }) => 4,
        Err(refusal) => refusal_code(refusal),
    }
}
