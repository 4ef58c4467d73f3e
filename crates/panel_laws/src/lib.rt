// The repairs of packed meshes, by the rules alone: the theorems stand in proofs/. This crate has no code.

#![tactic(auto)]
