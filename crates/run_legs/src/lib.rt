//! What a node puts on the legs of a bearer, whatever the routing: every PDU has the next number of its leg, goes on legs that
//! are live, and is one of those that were to be sent. Definitions and proofs alone; there is no code here.
#![tactic(auto)]
