// The starred examples of document 01, as two equal lists: the theorem stands in proofs/. This crate has no code.

#![tactic(auto)]
