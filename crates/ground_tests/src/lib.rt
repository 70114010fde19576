//! Tests of the crates of the ground, the formats, the ciphers and the entities: each public call with ample memory, and outside
//! vectors. They stand in a crate of their own so that no crate is proved twice for its tests.
#![tactic(auto)]

#[cfg(test)]
mod of_dc_base;
#[cfg(test)]
mod of_dc_outside;
#[cfg(test)]
mod of_dc_text;
#[cfg(test)]
mod of_forward;
#[cfg(test)]
mod of_gtpu;
#[cfg(test)]
mod of_key_chain;
#[cfg(test)]
mod of_nea2;
#[cfg(test)]
mod of_nr_u;
#[cfg(test)]
mod of_pdcp_pdu;
#[cfg(test)]
mod of_pdcp_rx;
#[cfg(test)]
mod of_pdcp_tx;
#[cfg(test)]
mod of_split_leg;
