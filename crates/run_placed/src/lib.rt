//! The notes of every run stand in their place: that the terminal has a bearer in a generation, or has dropped it. Definitions and proofs
//! alone; there is no code here.
#![tactic(auto)]
