// The place of a refusal is below 2^32, whatever the input is: the theorems stand in proofs/. This crate has no code.

#![tactic(auto)]
