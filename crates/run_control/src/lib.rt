//! The control plane of a run: what the nodes' procedures and their anchors do, apart from the traffic of the bearers:
//! definitions and proofs alone. There is no code here.
#![tactic(auto)]
