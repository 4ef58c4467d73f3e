// What a repair keeps, whatever its options are: the theorems stand in proofs/. This crate has no code.

#![tactic(auto)]
