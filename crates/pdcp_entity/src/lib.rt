//! A PDCP entity, both its sides, over the legs of its bearer (TS 38.323, 4.2.2): it numbers, ciphers and sends SDUs, and reads,
//! deciphers and orders what comes. Terminal and anchor have the same one.
#![tactic(auto)]

mod confirming;
mod entity;
mod sending;
mod setup;

pub use entity::PdcpEntity;
pub use setup::Setup;
