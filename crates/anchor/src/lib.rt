//! The anchor of a bearer at a node: the node that has its PDCP entity (TS 37.340, 4.2.2 and 8), from the setup of the bearer,
//! or from its takeover, until it is frozen and the bearer moves on.
#![tactic(auto)]

mod active;
mod anchor;
mod forwarding;
mod freezing;
mod host_tunnel;
mod lists;
mod low;
mod out;
mod payload;
mod sending;
mod takeover;
mod taking;
mod waiting;

pub use anchor::Anchor;
pub use forwarding::ForwardingTunnel;
pub use freezing::FreezeOut;
