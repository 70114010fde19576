//! The master and each secondary node in a run: what stands on their two control links, and what each takes the other to be.
//! Definitions and proofs alone; there is no code here.
#![tactic(auto)]
