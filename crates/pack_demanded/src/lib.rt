// Each mesh of a pack is what the repair makes of it, and demand 3 of each, of what our own calls leave and of what C gets: the theorems stand in proofs/.
// This crate has no code.

#![tactic(auto)]
