//! The transmitting PDCP entity of one radio bearer in one direction (TS 38.323, 5.2.1 and 5.4): it gives
//! each SDU its COUNT, and keeps it until it is confirmed.
#![tactic(auto)]

mod kept;
mod kept_sdus;
mod tx;

pub use kept_sdus::KeptSdus;
pub use tx::{Tx, TxErr, TxParts};
