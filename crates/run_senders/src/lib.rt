//! Who sends what in any run by the rules: each send begins at the node that took the input, on a link of its class.
//! Definitions and proofs alone; there is no code here.
#![tactic(auto)]
