//! How a downlink submission is answered in any run by the rules: the windows of the master are what the past of the claims
//! says of them. Definitions and proofs alone; there is no code here.
#![tactic(auto)]
