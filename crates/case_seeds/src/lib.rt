// The seeds of document 01's cases d to f: their numbers are laws in proofs/, computed once.
#![tactic(auto)]
