//! The host of a leg: the node that has a leg of a bearer and not its PDCP entity, the corresponding node of TS 38.425.
#![tactic(auto)]

mod host;
mod sends;

pub use host::LegHost;
