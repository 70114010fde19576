//! What follows in any run once the master and each secondary node agree: every record has its row where it comes, nothing
//! hangs, a drop is never refused, and the commands on bearers are answered as it is due. Definitions and proofs alone; there is
//! no code here.
#![tactic(auto)]
