//! What a move of the anchor keeps: the entity that the new anchor takes over is the one that the old anchor froze. Definitions
//! and proofs alone; there is no code here.
#![tactic(auto)]
