//! The order of the downlink in any run by the rules: what was submitted and has no COUNT yet is where it is to be, in its order, at
//! the anchor, on the core's lines, and while the anchor moves. Definitions and proofs alone; there is no code here.
#![tactic(auto)]
