//! What the form of a run alone says of its transcript: of the claims, those that need no state of a node. Definitions and
//! proofs alone; there is no code here.
#![tactic(auto)]
