//! What a run says, and what is claimed of it: definitions alone, over lists of lines. There is no node here, no
//! window and no timer.
#![tactic(auto)]
