// What pass 4's walk is when each edge is crossed in full only once: the theorems stand in proofs/. This crate has no code.

#![tactic(auto)]
