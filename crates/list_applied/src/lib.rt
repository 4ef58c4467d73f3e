// A mending list that our call wrote, applied by our call, leaves what our repair leaves: the theorems stand in proofs/. This crate has no code.

#![tactic(auto)]
