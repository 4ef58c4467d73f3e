// Lines of a mending list that apply one after the other, and how few they are: the theorems stand in proofs/. This crate has no code.

#![tactic(auto)]
