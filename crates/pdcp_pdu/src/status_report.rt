//! Status reports (TS 38.323, 6.2.3.1).

ghost use Rattle.std.specs.Prelude.{◌≡◌, ℕ, ◌+◌, ◌-◌, ◌/◌, ◌%◌, ◌<◌, ◌≤◌, ◌^◌, ◌++◌, ◌||◌, nat_lt, length, replicate, slice_index, slice_set, All, Ok, IfOk, IfSome};
ghost use Rattle.std.specs.List.Sorted.{IsStrictlyIncreasing};
ghost use Rattle.dc_base.specs.declared.numbers.SnLen.{SnLen};
ghost use Rattle.pdcp_pdu.specs.Bitmap.{names, is_among, bitmap, bitmap_len};
ghost use Rattle.pdcp_pdu.specs.StatusReport.{NamesReceived, report_header, first_beyond, report_pdu, whole_bits, sent_bits, sent_set};
ghost use Rattle.pdcp_pdu.specs.Pdu.{report, shown_fmc, outcome, read_report, decoded};

use crate::pdu::{Pdu, PduErr};
use dc_base::{Memory, Octets, Seq};
use std::alloc::Global;

/// The most octets that a status report has.
const LONGEST: usize = 9000;

/// How many octets come before the bitmap.
const HEADER: usize = 5;

/// Whether a report with this FMC and this bitmap names the COUNT as received: all below FMC are, and
/// FMC + k where bit k is 1; bits count from 1, and the first is bit 7 of the first octet.
pub fn is_named(fmc: u32, bits: &[u8], count: u32) -> bool
    ensures { result ≡ names fmc bits.now count }
{
    if count <= fmc {
        return count < fmc;
    }
    let bit = (count - fmc - 1) as usize;
    match bits.get(bit / 8) {
        None => false,
        Some(octet) => (*octet >> (7 - bit % 8)) % 2 == 1,
    }
}

/// The place of the first octet of a bitmap that names a number above 2^32 - 1.
fn first_beyond(fmc: u32, bits: &[u8]) -> Option<usize>
    ensures place { result ≡ first_beyond (2 ^ 32 - 1 - fmc) bits.now }
    ensures within { IfSome result (λ place. place < length bits.now) }
{
    let mut room = u32::MAX - fmc;
    for (place, octet) in bits.iter().enumerate() {
        let beyond = 8u32.saturating_sub(room);
        if u32::from(*octet) % (1 << beyond) != 0 {
            return Some(place);
        }
        room = room.saturating_sub(8);
    }
    None
}

/// The FMC that the octets of a report show.
fn shown_fmc(octets: &[u8]) -> u32
    requires { 5 ≤ length octets.now }
    ensures { result ≡ shown_fmc octets.now }
{
    u32::from(octets[1]) * 16_777_216
        + u32::from(octets[2]) * 65536
        + u32::from(octets[3]) * 256
        + u32::from(octets[4])
}

/// Reads octets whose first is below 16 as a status report. It refuses them as `decode` says.
#[tactic(auto, unfolding(crate::specs::Pdu::read_report))]
pub(crate) fn read_report(input: &[u8]) -> Result<Pdu<'_>, PduErr>
    ensures { outcome result ≡ read_report input.now }
{
    if input.len() < 5 {
        return Err(PduErr::Short { place: input.len() });
    }
    if input.len() > LONGEST {
        return Err(PduErr::TooLong { place: LONGEST });
    }
    let fmc = shown_fmc(input);
    let bits = &input[5..];
    match first_beyond(fmc, bits) {
        None => Ok(Pdu::Report { fmc, bits }),
        Some(place) => Err(PduErr::BadReport { place: 5 + place }),
    }
}

/// How many octets of bitmap show the last of an ascending list of COUNTs above FMC.
fn bitmap_len(fmc: u32, received: &[u32]) -> usize
    requires ascending { IsStrictlyIncreasing received.now }
    requires above { All (λ c. fmc < c) received.now }
    ensures { result ≡ bitmap_len fmc received.now }
{
    match received.last() {
        None => 0,
        Some(last) => ((*last - fmc) as usize + 7) / 8,
    }
}

/// Makes bit `bit` of a bitmap 1, from 0 on: it is 0 before.
fn mark(bits: &mut [u8], bit: usize)
    requires inside { bit / 8 < length bits.old }
    requires room { slice_index bits.old (bit / 8) + 2 ^ (7 - bit % 8) < 256 }
    ensures { bits.new ≡ slice_set bits.old (bit / 8) (slice_index bits.old (bit / 8) + 2 ^ (7 - bit % 8)) }
{
    bits[bit / 8] += 1 << (7 - bit % 8);
}

/// Writes the bitmap for an ascending list of COUNTs above FMC over octets that are 0, as far as they go.
fn write_bitmap(bits: &mut [u8], fmc: u32, received: &[u32])
    requires zero { bits.old ≡ replicate (length bits.old) 0 }
    requires ascending { IsStrictlyIncreasing received.now }
    requires above { All (λ c. fmc < c) received.now }
    ensures { bits.new ≡ bitmap (is_among received.now) (fmc + 1) (length bits.old) }
{
    let len = bits.len();
    for count in received {
        let bit = (*count - fmc - 1) as usize;
        if bit / 8 < len {
            mark(bits, bit);
        }
    }
}

/// Writes the report with this FMC over octets that are 0: its header, with D/C bit, type and R bits 0, and as
/// much of the bitmap as there is room for.
fn write_report(octets: &mut [u8], fmc: u32, received: &[u32])
    requires header { 5 ≤ length octets.old }
    requires zero { octets.old ≡ replicate (length octets.old) 0 }
    requires ascending { IsStrictlyIncreasing received.now }
    requires above { All (λ c. fmc < c) received.now }
    ensures { octets.new ≡ report_header 0 fmc ++ bitmap (is_among received.now) (fmc + 1) (length octets.old - 5) }
{
    let (header, bits) = octets.split_at_mut(HEADER);
    header.copy_from_slice(&[
        0,
        (fmc / 16_777_216) as u8,
        (fmc / 65536 % 256) as u8,
        (fmc / 256 % 256) as u8,
        (fmc % 256) as u8,
    ]);
    write_bitmap(bits, fmc, received);
}

/// The octets of a status report, where the received COUNTs ascend from above FMC.
#[tactic(auto, unfolding(crate::specs::StatusReport::report_pdu))]
fn spelled(alloc: Global, fmc: u32, received: &[u32]) -> Result<Octets, Memory>
    requires ascending { IsStrictlyIncreasing received.now }
    requires above { All (λ c. fmc < c) received.now }
    ensures octets { IfOk result (λ octets. octets ≡ report_pdu fmc received.now) }
    ensures counts { (i : ℕ) → slice_index received.now i < 2 ^ 32 }
{
    let len = bitmap_len(fmc, received).min(LONGEST - HEADER);
    let mut octets = vec![in alloc; 0u8; HEADER + len]?;
    write_report(&mut octets, fmc, received);
    Ok(Octets::from_vec(octets))
}

/// The bitmap for an ascending list of COUNTs above FMC, never cut.
fn whole_bitmap(alloc: Global, fmc: u32, received: &[u32]) -> Result<Octets, Memory>
    requires ascending { IsStrictlyIncreasing received.now }
    requires above { All (λ c. fmc < c) received.now }
    ensures { IfOk result (λ bits. bits ≡ whole_bits fmc received.now) }
{
    let mut bits = vec![in alloc; 0u8; bitmap_len(fmc, received)]?;
    write_bitmap(&mut bits, fmc, received);
    Ok(Octets::from_vec(bits))
}

/// The status report that says: all COUNTs below `fmc` are received, and of those above it exactly these,
/// which ascend. Its bitmap ends with the octet that has the last of them, or at 9000 octets of PDU: then it
/// names only those below `fmc + 71961`. With nothing received above `fmc` there is no bitmap.
pub fn encode_report(alloc: Global, fmc: u32, received: &Seq<u32>) -> Result<Octets, Memory>
    requires ascending { IsStrictlyIncreasing received.now }
    requires above { All (λ c. fmc < c) received.now }
    ensures octets { IfOk result (λ octets. octets ≡ report_pdu fmc received.now) }
    ensures names { IfOk result (λ octets. NamesReceived fmc (sent_set fmc received.now) octets) }
    ensures again { IfOk result (λ octets. (n : SnLen) → decoded n octets ≡ Ok (report fmc (sent_bits fmc received.now))) }
{
    spelled(alloc, fmc, received.as_slice())
}

/// The bitmap for COUNTs received above `fmc`, which ascend: that of `encode_report`, but never cut, as SN
/// STATUS TRANSFER carries it (TS 38.423, 8.2.2).
pub fn encode_bitmap(alloc: Global, fmc: u32, received: &Seq<u32>) -> Result<Octets, Memory>
    requires ascending { IsStrictlyIncreasing received.now }
    requires above { All (λ c. fmc < c) received.now }
    ensures octets { IfOk result (λ bits. bits ≡ whole_bits fmc received.now) }
    ensures names { IfOk result (λ bits. (c : ℕ) → names fmc bits c ≡ (nat_lt c fmc || is_among received.now c)) }
{
    whole_bitmap(alloc, fmc, received.as_slice())
}
