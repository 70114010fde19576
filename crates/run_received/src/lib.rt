//! In every run the receiving entity of each uplink, wherever it is, is what the past says: what it has handed up, what it took, and
//! what is on its way to it. Definitions and proofs alone; there is no code here.
#![tactic(auto)]
