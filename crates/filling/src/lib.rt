// What an answer room holds after an accepted call: the law stands in proofs/. This crate has no code.

#![tactic(auto)]
