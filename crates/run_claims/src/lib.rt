//! What is proved of every run: lemmas, which a clause of the top call cites. Nothing here runs.
#![tactic(auto)]
