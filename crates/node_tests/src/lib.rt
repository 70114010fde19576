//! Tests of the crates of the nodes, of the network and of the live part: each public call with ample memory.
#![tactic(auto)]

#[cfg(test)]
mod of_command_table;
#[cfg(test)]
mod of_dc_network;
#[cfg(test)]
mod of_inbox;
#[cfg(test)]
mod of_leg_host;
#[cfg(test)]
mod of_master_core;
#[cfg(test)]
mod of_merging;
#[cfg(test)]
mod of_pdcp_entity;
#[cfg(test)]
mod of_second_core;
#[cfg(test)]
mod of_term_core;
#[cfg(test)]
mod of_xn_packets;
#[cfg(test)]
mod of_xn_procs;
