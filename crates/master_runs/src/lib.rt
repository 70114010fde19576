//! The run theorem for scripts with all bearers at the master: a transcript by the rules of the whole machine meets the
//! claims. Definitions and proofs alone; there is no code here.
#![tactic(auto)]
