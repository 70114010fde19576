//! The keeper of each bearer: by the past the node that holds a bearer is the one whose anchor is active. What the notes of a step leave active,
//! which holders its lines leave, and a step of a node, where its plans and acts are such as these lemmas ask. Definitions and proofs alone;
//! there is no code here.
#![tactic(auto)]
