//! The holder of each bearer: the node whose anchor is active is the one that the past has as its holder, in its generation, in each run
//! whose steps suit the past; which steps do. Definitions and proofs alone; there is no code here.
#![tactic(auto)]
