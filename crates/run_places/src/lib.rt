//! Where bearers are in every run: at most one node holds a bearer at a time, and a waiting anchor is one to which the open command
//! moves it. Definitions and proofs alone; there is no code here.
#![tactic(auto)]
