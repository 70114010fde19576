//! Generations in every run: each plan that a node is told of is newer than all that it was told of before. Definitions and proofs
//! alone; there is no code here.
#![tactic(auto)]
