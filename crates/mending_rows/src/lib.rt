// The rows that a mending list is written from, and the lines that they tell: specs/. This crate has no code.

#![tactic(auto)]
