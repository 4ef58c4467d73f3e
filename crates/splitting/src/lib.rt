// Pass 5 all at once, on the unchanged list of faces: the theorems stand in proofs/. This crate has no code.

#![tactic(auto)]
