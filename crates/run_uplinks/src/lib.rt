//! The terminal's side of each bearer in any run by the rules: its uplink is what the past of the claims says of it.
//! Definitions and proofs alone; there is no code here.
#![tactic(auto)]
