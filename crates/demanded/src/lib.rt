// Demand 3 of what the calls themselves give back: the theorems stand in proofs/. This crate has no code.

#![tactic(auto)]
