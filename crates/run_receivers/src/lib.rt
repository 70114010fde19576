//! The receiving entity of a bearer, wherever it is: what it hands up is the next of the submissions, at the terminal, at an anchor
//! and over a move of the anchor. Definitions and proofs alone; there is no code here.
#![tactic(auto)]
