//! Keys in every run: no key of a bearer identity is in use for two establishments.
//! Definitions and proofs alone; there is no code here.
#![tactic(auto)]
