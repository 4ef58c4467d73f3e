// How long the lines of pass 5 are, by the corners in face order: the theorems stand in proofs/. This crate has no code.

#![tactic(auto)]
