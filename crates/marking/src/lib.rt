// Marks of faces, made run after run of a table: no code, but what passes 3 and 4 ask and give there, and its laws.

#![tactic(auto)]
