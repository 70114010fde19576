//! PDCP PDUs of a data radio bearer in acknowledged mode (TS 38.323, clause 6): the data PDU with a
//! sequence number of 12 or 18 bits, and the status report. A codec without state.
#![tactic(auto)]

mod data_pdu;
mod pdu;
mod status_report;

pub use data_pdu::{encode_data, is_data};
pub use pdu::{Pdu, PduErr, decode};
pub use status_report::{encode_bitmap, encode_report, is_named};
