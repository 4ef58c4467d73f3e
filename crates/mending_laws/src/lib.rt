// A mending list that was written applies, and gives the repaired mesh: the theorems stand in proofs/. This crate has no code.

#![tactic(auto)]
