// What is written is read, and what is read is written: the theorems stand in proofs/. This crate has no code.

#![tactic(auto)]
