// Why a call is refused (document 01, "Where each number is given"), by number in rising order; the document's table has the order in which
// they are tried.
#![tactic(auto)]

ghost use Rattle.std.specs.Prelude.{◌≡◌};
ghost use Rattle.refusals.specs.Refused.{number};

#[derive(Clone, Copy, Debug, PartialEq, Eq)]
pub enum Refusal {
    // The key, first in every call.
    // Under 24 bytes.
    KeyShort = 1,
    // q is not listed.
    KeyModulus = 2,
    // n, m, N, M or τ is outside its limits.
    KeyLimits = 3,
    // The length isn't 24 + 4n(m + 1).
    KeyLength = 4,
    // An entry is q or more.
    KeyEntry = 5,

    // The prover's inputs; 7 and 10 in a transcript as well.
    // A seed, seed list or secret list of wrong length.
    InputLength = 6,
    // E isn't τ strictly rising values in 1..M.
    OpenedList = 7,
    // A secret entry isn't 0 or 1.
    SecretEntry = 8,
    // A·s isn't t.
    SecretImage = 9,
    // The hidden list isn't M - τ values in 1..N.
    HiddenList = 10,

    // Lent outputs and work lists.
    // A lent output or work list is too short, or the place is past the output's end.
    Room = 11,

    // A transcript.
    // The first six pairs, or any offset, or the file's end is wrong.
    Header = 12,
    // The seventh length is wrong.
    RepliesLength = 13,
    // A number of part 7 is q or more.
    RepliesNumber = 14,
    // The o of a kept execution do not add up to 0.
    OutputSum = 15,
    // Ω of a kept execution is wrong.
    Omega = 16,
    // hΓ is wrong.
    HGamma = 17,
    // hπ is wrong.
    HPi = 18,
    // hψ is wrong.
    HPsi = 19,

    // A pair of transcripts.
    // The first is not accepted.
    FirstRun = 20,
    // The second is not accepted.
    SecondRun = 21,
    // Parts 1 to 5 differ.
    FrontsDiffer = 22,
    // The hidden lists are equal.
    HiddenEqual = 23,
}

impl Refusal {
    // Its number in document 01's table.
    pub fn number(self) -> u32
        ensures { result ≡ number self }
    {
        self as u32
    }
}

// The same number as a conversion, as a caller with a `u32` to give writes it.
impl From<Refusal> for u32 {
    fn from(refusal: Refusal) -> u32
        ensures { result ≡ number refusal }
    {
        refusal.number()
    }
}
