// Demand 3 of what C gets: the theorems stand in proofs/. This crate has no code.

#![tactic(auto)]
