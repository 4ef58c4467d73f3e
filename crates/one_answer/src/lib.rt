// Two answers that a call's statement allows are one: the theorems stand in proofs/. This crate has no code.

#![tactic(auto)]
