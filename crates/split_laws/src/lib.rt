// The lines of a mending list that tell pass 5 and pass 6, from rows: the theorems stand in proofs/. This crate has no code.

#![tactic(auto)]
