// Document 01's cases a to j. The function does nothing: its contract is the table.
ghost use Rattle.std.specs.Prelude.{ℕ, List};
ghost use Rattle.protocol.specs.Cases.{cases, Agree};

// What the definitions give in each case is what document 01 says.
pub fn cases_a_to_j()
    ensures { (root : List ℕ) → Agree (cases root) }
{}
