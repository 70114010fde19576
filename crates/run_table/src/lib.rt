//! The master's command table in a run: the past of the claims keeps the very table that the master holds. Definitions and
//! proofs alone; there is no code here.
#![tactic(auto)]
