//! In every run, what an anchor stops to keep for an ack or a delivery status was received by the terminal. Definitions and proofs
//! alone; there is no code here.
#![tactic(auto)]
