//! What is claimed of a run, for the whole machine: definitions alone, read off one past of the run. There is no node
//! here.
#![tactic(auto)]
