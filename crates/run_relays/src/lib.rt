//! Uplink PDUs on their way to the anchor in any run by the rules: on the air, relayed by a leg host, kept by an anchor that waits.
//! Definitions and proofs alone; there is no code here.
#![tactic(auto)]
