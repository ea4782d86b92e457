// What acceptance means, and demand 3 of the letter. Each function does nothing: its contract is the theorem.
ghost use Rattle.std.specs.Prelude.{ℕ, ◌≡◌, List, ◌++◌};
ghost use Rattle.lists.specs.Check.{accepted, first};
ghost use Rattle.protocol.specs.Key.{key_of, key_checks};
ghost use Rattle.protocol.specs.Prover.{checks7};
ghost use Rattle.protocol.specs.Transcript.{transcript};
ghost use Rattle.protocol.specs.Judge.{judge};
ghost use Rattle.protocol.specs.Pair.{Lengths, pair, secret};
ghost use Rattle.protocol.specs.Accepts.{Accepts};
ghost use Rattle.protocol.specs.Honest.{honest_parts};
ghost use Rattle.protocol.specs.Demand3.{Forked, LongEnough, Demand3};
ghost use Rattle.protocol.specs.Fits.{Fits};

// The judge accepts exactly the transcripts that have every fact of `Accepts`.
pub fn accepted_means()
    ensures then_accepts { (key x : List ℕ) → judge key x ≡ accepted → Accepts key x }
    ensures if_accepts { (key x : List ℕ) → Accepts key x → judge key x ≡ accepted }
{}

// For any key, any two transcripts and any lent lists, the pair reader gives a finding only if the judge accepts both, parts 1 to 5 are
// equal and the hidden lists differ; it always does so then, if the lists are long enough for a key that is read; and the finding is true
// of transcripts that are bytes. Nothing is assumed of SHA-256 and AES-128.
pub fn demand_3()
    ensures { (key x y : List ℕ) (l : Lengths) → Demand3 key l x y }
{}

// Demand 3 is not empty: two of the prover's own transcripts of one run, with two hidden lists that differ, fork.
pub fn honest_transcripts_fork()
    ensures { (key seeds secret E κ L hidden₁ hidden₂ : List ℕ)
        → first (key_checks (key_of key) key ++ checks7 (key_of key) seeds secret E κ L hidden₁) ≡ accepted
        → first (key_checks (key_of key) key ++ checks7 (key_of key) seeds secret E κ L hidden₂) ≡ accepted
        → (hidden₁ ≡ hidden₂ → ⊥)
        → Forked key (transcript (honest_parts (key_of key) seeds secret E κ L hidden₁)) (transcript (honest_parts (key_of key) seeds secret E κ L hidden₂)) }
{}

// Two of the prover's own transcripts of one run, with two hidden lists that differ, give the pair reader finding 2, if the lent lists are
// long enough, and the secret is the badge's own.
pub fn honest_pair_gives_the_secret()
    ensures { (key seeds bits E κ L hidden₁ hidden₂ : List ℕ) (l : Lengths)
        → LongEnough key l
        → first (key_checks (key_of key) key ++ checks7 (key_of key) seeds bits E κ L hidden₁) ≡ accepted
        → first (key_checks (key_of key) key ++ checks7 (key_of key) seeds bits E κ L hidden₂) ≡ accepted
        → (hidden₁ ≡ hidden₂ → ⊥)
        → pair key l (transcript (honest_parts (key_of key) seeds bits E κ L hidden₁)) (transcript (honest_parts (key_of key) seeds bits E κ L hidden₂)) ≡ secret bits }
{}

// Whatever the pair reader is given, each number of its answer is within the bounds of `Fits`: none needs more than 32 bits.
pub fn readings_fit()
    ensures { (key x y : List ℕ) (l : Lengths) → Fits (pair key l x y) }
{}
