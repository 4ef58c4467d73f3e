// What is true of the rules: laws of their words, what the passes keep, demand 3. The theorems stand in proofs/. This crate has no code.

#![tactic(auto)]
