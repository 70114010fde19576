//! What holds in any run without a condition: a secondary node takes each record that comes to it, a recovery and a want are on their
//! way, and so nothing stalls in the control plane. Definitions and proofs alone; there is no code here.
#![tactic(auto)]
