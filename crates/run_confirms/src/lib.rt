//! What an ack or a delivery status confirms: only what came to the terminal. Each node on the way keeps what it needs for that,
//! step by step. Definitions and proofs alone; there is no code here.
#![tactic(auto)]
