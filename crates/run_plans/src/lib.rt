//! Plans and keys in the records of every run: each plan that a record carries is the one that was drawn with its generation.
//! Definitions and proofs alone; there is no code here.
#![tactic(auto)]
