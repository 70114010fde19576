//! Data PDUs (TS 38.323, 6.2.2.2 and 6.2.2.3).

ghost use Rattle.std.specs.Prelude.{◌≡◌, ◌+◌, ◌<◌, ◌≤◌, ◌++◌, length, Ok, IfOk, OnOk};
ghost use Rattle.dc_base.specs.Count.{modulus};
ghost use Rattle.pdcp_pdu.specs.DataPdu.{IsDataPdu, header, header_len, data_pdu, is_data};
ghost use Rattle.pdcp_pdu.specs.Pdu.{sdu, shown_sn, outcome, read_data, decoded};

use crate::pdu::{Pdu, PduErr};
use dc_base::{Memory, Octets, SnLen};
use std::alloc::Global;

/// The most octets that a data PDU carries.
const LONGEST: usize = 9000;

/// How many octets the header has.
fn header_len(n: SnLen) -> usize
    ensures { result ≡ header_len n }
{
    match n {
        SnLen::S12 => 2,
        SnLen::S18 => 3,
    }
}

/// The sequence number that the header of these octets shows, below 2^12 or 2^18.
fn shown_sn(n: SnLen, octets: &[u8]) -> u32
    requires { header_len n ≤ length octets.now }
    ensures { result ≡ shown_sn n octets.now }
{
    match n {
        SnLen::S12 => u32::from(octets[0] % 16) * 256 + u32::from(octets[1]),
        SnLen::S18 => {
            u32::from(octets[0] % 4) * 65536 + u32::from(octets[1]) * 256 + u32::from(octets[2])
        }
    }
}

/// Whether octets are those of a data PDU, and not of a control PDU: the D/C bit, bit 7 of the first, is 1 (TS
/// 38.323, 6.3.7). Without an octet they are not.
pub fn is_data(pdu: &[u8]) -> bool
    ensures { result ≡ is_data pdu.now }
{
    match pdu.first() {
        Some(octet) => *octet >= 128,
        None => false,
    }
}

/// Reads octets whose D/C bit is 1 as a data PDU. It refuses them as `decode` says.
#[tactic(auto, unfolding(crate::specs::Pdu::read_data))]
pub(crate) fn read_data(n: SnLen, input: &[u8]) -> Result<Pdu<'_>, PduErr>
    ensures { outcome result ≡ read_data n input.now }
{
    let header = header_len(n);
    if input.len() < header + 1 {
        return Err(PduErr::Short { place: input.len() });
    }
    if input.len() > header + LONGEST {
        return Err(PduErr::TooLong {
            place: header + LONGEST,
        });
    }
    Ok(Pdu::Sdu {
        sn: shown_sn(n, input),
        body: &input[header..],
    })
}

/// Adds the header of a sequence number, with R bits 0.
fn write_header(octets: &mut Vec<u8>, n: SnLen, sn: u32) -> Result<(), Memory>
    requires { sn < modulus n }
    ensures { OnOk result (octets.new.items ≡ octets.old.items ++ header n 0 sn) }
{
    let last = (sn % 256) as u8;
    match n {
        SnLen::S12 => octets.extend_from_slice(&[128 + (sn / 256) as u8, last])?,
        SnLen::S18 => octets.extend_from_slice(&[
            128 + (sn / 65536) as u8,
            (sn / 256 % 256) as u8,
            last,
        ])?,
    }
    Ok(())
}

/// The data PDU of a sequence number, below 2^12 or 2^18, and of 1 to 9000 octets. Its R bits are 0.
#[tactic(auto, unfolding(crate::specs::DataPdu::data_pdu))]
pub fn encode_data(alloc: Global, n: SnLen, sn: u32, body: &[u8]) -> Result<Octets, Memory>
    requires small { sn < modulus n }
    requires some { 1 ≤ length body.now }
    requires most { length body.now ≤ 9000 }
    ensures octets { IfOk result (λ octets. octets ≡ data_pdu n sn body.now) }
    ensures grammar { IfOk result (λ octets. IsDataPdu n sn body.now octets) }
    ensures again { IfOk result (λ octets. decoded n octets ≡ Ok (sdu sn body.now)) }
{
    let mut octets = Vec::with_capacity(alloc, header_len(n) + body.len())?;
    write_header(&mut octets, n, sn)?;
    octets.extend_from_slice(body)?;
    Ok(Octets::from_vec(octets))
}
