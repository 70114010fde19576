//! What the procedures of each secondary node hold in any run by the rules is what the past of the claims says of it.
//! Definitions and proofs alone; there is no code here.
#![tactic(auto)]
