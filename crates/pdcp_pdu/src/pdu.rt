//! What a PDU is read as, and why octets are none.

ghost use Rattle.std.specs.Prelude.{◌≡◌, ◌<◌, ◌^◌, List, Ok, IfOk, IfErr};
ghost use Rattle.pdcp_pdu.specs.Pdu.{Content, IsPdu, IsBadAt, content, outcome, decoded};

use crate::data_pdu::{is_data, read_data};
use crate::status_report::read_report;
use dc_base::SnLen;
use thiserror::Error;

/// A PDU that was read, with its parts lent out of the octets.
#[derive(Clone, Copy, Debug, PartialEq, Eq)]
pub enum Pdu<'a> {
    /// A data PDU: its sequence number, below 2^12 or 2^18, and the 1 to 9000 octets that it carries.
    Sdu { sn: u32, body: &'a [u8] },
    /// A status report: the first missing COUNT, and the bitmap, at most 8995 octets.
    Report { fmc: u32, bits: &'a [u8] },
}

/// Why octets are no PDU: the first check that fails. `place` counts octets from 0.
#[derive(Clone, Copy, Debug, PartialEq, Eq, Error)]
pub enum PduErr {
    /// A data PDU without its header and an octet of data, or a report without its FMC. The place is the length.
    #[error("the PDU ends at octet {place}")]
    Short { place: usize },
    /// A control PDU that is no status report. The place is 0.
    #[error("octet {place} begins a control PDU that is no status report")]
    ControlKind { place: usize },
    /// More than 9000 octets of data, or a report of more than 9000 octets. The place is the first of the rest.
    #[error("the PDU is too long from octet {place} on")]
    TooLong { place: usize },
    /// The bitmap names a number above 2^32 - 1. The place is the first octet that does.
    #[error("octet {place} reports a number above every COUNT")]
    BadReport { place: usize },
}

/// Reads octets as a PDU, check by check.
#[tactic(auto, unfolding(crate::specs::Pdu::decoded))]
fn read(n: SnLen, input: &[u8]) -> Result<Pdu<'_>, PduErr>
    ensures { outcome result ≡ decoded n input.now }
{
    if input.is_empty() {
        return Err(PduErr::Short { place: 0 });
    }
    if is_data(input) {
        return read_data(n, input);
    }
    if input[0] >= 16 {
        return Err(PduErr::ControlKind { place: 0 });
    }
    read_report(input)
}

/// Reads octets as a PDU (TS 38.323, 6.2.2 and 6.2.3.1). R bits are not looked at. The checks come in this
/// order: there is an octet (`Short`); a control PDU has type 000 (`ControlKind`); header and data, or FMC,
/// are there (`Short`); at most 9000 octets (`TooLong`); a report names COUNTs alone (`BadReport`).
pub fn decode(n: SnLen, input: &[u8]) -> Result<Pdu<'_>, PduErr>
    // What is read is a PDU of the grammar.
    ensures found { IfOk result (λ pdu. IsPdu n (content pdu) input.now) }
    // A PDU of the grammar is read, as what it says.
    ensures only { (said : Content) → IsPdu n said input.now → outcome result ≡ Ok said }
    // Which check fails first, and where.
    ensures exact { outcome result ≡ decoded n input.now }
    ensures bad_report { IfErr result (IsBadAt input.now) }
{
    read(n, input)
}
