//! The anchor of a bearer at a secondary node, with the line that brings the SDUs from the core (TS 37.340, 8.2).

mod fed;
mod frozen;

pub(crate) use fed::FedAnchor;
pub(crate) use frozen::FrozenAnchor;
