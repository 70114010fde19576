//! The downlink in every run by the rules: each data PDU that an anchor sends is that of an SDU that its entity keeps.
//! Definitions and proofs alone; there is no code here.
#![tactic(auto)]
