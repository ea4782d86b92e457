// Demand 2, honest transcripts: what is proved of the definitions alone.
ghost use Rattle.std.specs.Prelude.{ℕ, ◌≡◌, ◌⊎◌, List, [], ◌∷◌, ◌++◌};
ghost use Rattle.lists.specs.Check.{accepted, first};
ghost use Rattle.protocol.specs.Key.{key_of, key_checks};
ghost use Rattle.protocol.specs.Prover.{checks7};
ghost use Rattle.protocol.specs.Transcript.{transcript};
ghost use Rattle.protocol.specs.Judge.{judge};
ghost use Rattle.protocol.specs.Honest.{honest_parts, small_key, small_secret, zeros};

// Every transcript made of the prover's own messages is accepted, whichever challenges E, L and hidden list came, if none of the
// prover's numbers 1 to 10 applies.
pub fn honest_acceptance()
    ensures { (key seeds secret E κ L hidden : List ℕ)
        → first (key_checks (key_of key) key ++ checks7 (key_of key) seeds secret E κ L hidden) ≡ accepted
        → judge key (transcript (honest_parts (key_of key) seeds secret E κ L hidden)) ≡ accepted }
{}

// Such inputs exist, for each of the four challenges E and hidden list of a small key.
pub fn honest_premises_hold()
    ensures { (E hidden : ℕ) → (E ≡ 1) ⊎ (E ≡ 2) → (hidden ≡ 1) ⊎ (hidden ≡ 2)
        → first
        (key_checks (key_of small_key) small_key
        ++ checks7 (key_of small_key) (zeros 32) small_secret (E ∷ []) (zeros 16) (zeros 16) (hidden ∷ []))
        ≡ accepted }
{}
