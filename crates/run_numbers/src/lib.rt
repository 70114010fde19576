//! Numbers in every run: what a node puts on a leg has the next number of that leg. Definitions and proofs alone; there is no
//! code here.
#![tactic(auto)]
