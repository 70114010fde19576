//! What octets are shown as. After want of memory what was written is not used.

ghost use Rattle.std.specs.Prelude.{◌≡◌, ℕ, ◌+◌, ◌*◌, ◌^◌, ◌<◌, ◌≤◌, ◌++◌, length, OnOk, IfOk, [], ◌∷◌};
ghost use Rattle.std.specs.List.{flat_map};
ghost use Rattle.pdcp_pdu.specs.Bitmap.{is_shown};
ghost use Rattle.pdcp_pdu.specs.Pdu.{sdu, report, decoded};
ghost use Rattle.gtpu.specs.Content.{view};
ghost use Rattle.dc_forms.specs.Shown.{pdu_text, shown_at, shown_from, received, kind_name, container_text, number_text, body_text, packet_text, gtp_fault_text, flag, range_text, highest_text, lost_text, frame_text, IsNruFaultLine, IsShown};

use crate::form::Kind;
use crate::pieces::{write_bad, write_numbered};
use dc_base::{Memory, Octets, SnLen};
use dc_text::write_hex;
use gtpu::{GtpErr, GtpKind, Packet, PduNumber};
use nr_u::{Frame, NruErr, Range};
use pdcp_pdu::{Pdu, PduErr};
use std::alloc::Global;

/// Writes why octets are no PDCP PDU.
fn write_pdu_fault(out: &mut Octets, error: PduErr) -> Result<(), Memory>
    ensures { OnOk result (out.new ≡ out.old ++ pdu_text (Err error)) }
{
    match error {
        PduErr::Short { place } => write_bad(out, b"short", place),
        PduErr::ControlKind { place } => write_bad(out, b"controlkind", place),
        PduErr::TooLong { place } => write_bad(out, b"toolong", place),
        PduErr::BadReport { place } => write_bad(out, b"badreport", place),
    }
}

/// Whether bit `k` of a bitmap is 1, from 0.
fn is_set(bits: &[u8], k: usize) -> bool
    requires { k < 8 * length bits.now }
    ensures { result ≡ is_shown bits.now (k + 1) }
{
    bits[k / 8] >> (7 - k % 8) & 1 == 1
}

/// Writes the COUNT of bit `k` of a bitmap, from 0, after a space, if the bit is 1.
fn write_shown(out: &mut Octets, fmc: u32, bits: &[u8], k: usize) -> Result<(), Memory>
    requires bit { k < 8 * length bits.now }
    requires small { length bits.now ≤ 8995 }
    ensures { OnOk result (out.new ≡ out.old ++ shown_at fmc bits.now (k + 1)) }
{
    if is_set(bits, k) {
        write_numbered(out, b" ", fmc as u64 + (k as u64 + 1))
    } else {
        Ok(())
    }
}

/// The COUNTs above FMC that a bitmap shows, each after a space.
#[tactic(auto, using(crate::proofs::Showing::shown_next))]
fn shown_counts(alloc: Global, fmc: u32, bits: &[u8]) -> Result<Octets, Memory>
    requires { length bits.now ≤ 8995 }
    ensures { IfOk result (λ counts. counts ≡ shown_from fmc bits.now 1 (8 * length bits.now)) }
{
    let mut counts = Octets::new(alloc);
    for k in 0..8 * bits.len() {
        write_shown(&mut counts, fmc, bits, k)?;
    }
    Ok(counts)
}

/// Writes the COUNTs above FMC that a bitmap shows.
fn write_received(alloc: Global, out: &mut Octets, fmc: u32, bits: &[u8]) -> Result<(), Memory>
    requires { length bits.now ≤ 8995 }
    ensures { OnOk result (out.new ≡ out.old ++ received (shown_from fmc bits.now 1 (8 * length bits.now))) }
{
    let counts = shown_counts(alloc, fmc, bits)?;
    if counts.is_empty() {
        return Ok(());
    }
    out.extend(b" received")?;
    out.extend(counts.as_slice())
}

/// Writes a data PDU.
fn write_sdu(out: &mut Octets, sn: u32, body: &[u8]) -> Result<(), Memory>
    ensures { OnOk result (out.new ≡ out.old ++ pdu_text (Ok (sdu sn body.now))) }
{
    write_numbered(out, b"data sn ", sn as u64)?;
    out.extend(b" body ")?;
    write_hex(out, body)
}

/// Writes a status report.
fn write_report(alloc: Global, out: &mut Octets, fmc: u32, bits: &[u8]) -> Result<(), Memory>
    requires { length bits.now ≤ 8995 }
    ensures { OnOk result (out.new ≡ out.old ++ pdu_text (Ok (report fmc bits.now))) }
{
    write_numbered(out, b"report fmc ", fmc as u64)?;
    write_received(alloc, out, fmc, bits)
}

/// Writes what octets are read as, as a PDCP PDU.
fn show_pdu(alloc: Global, n: SnLen, out: &mut Octets, octets: &[u8]) -> Result<(), Memory>
    ensures { OnOk result (out.new ≡ out.old ++ pdu_text (decoded n octets.now)) }
{
    match pdcp_pdu::decode(n, octets) {
        Ok(Pdu::Sdu { sn, body }) => write_sdu(out, sn, body),
        Ok(Pdu::Report { fmc, bits }) => write_report(alloc, out, fmc, bits),
        Err(error) => write_pdu_fault(out, error),
    }
}

/// Writes the name of a kind of packet.
fn write_kind(out: &mut Octets, kind: GtpKind) -> Result<(), Memory>
    ensures { OnOk result (out.new ≡ out.old ++ kind_name kind) }
{
    match kind {
        GtpKind::GPdu => out.extend(b"gpdu"),
        GtpKind::EndMarker => out.extend(b"endmarker"),
        GtpKind::EchoRequest => out.extend(b"echorequest"),
        GtpKind::EchoResponse => out.extend(b"echoresponse"),
        GtpKind::ErrorIndication => out.extend(b"errorindication"),
    }
}

/// Writes the container of a packet, if it has one.
fn write_container(out: &mut Octets, packet: &Packet<'_>) -> Result<(), Memory>
    ensures { OnOk result (out.new ≡ out.old ++ container_text (view packet.now).container) }
{
    let Some(container) = packet.container else {
        return Ok(());
    };
    out.extend(b" container ")?;
    write_hex(out, container)
}

/// Writes the number of a packet, if it has one.
fn write_pdu_number(out: &mut Octets, number: Option<PduNumber>) -> Result<(), Memory>
    ensures { OnOk result (out.new ≡ out.old ++ number_text number) }
{
    match number {
        None => Ok(()),
        Some(PduNumber::Short(n)) => write_numbered(out, b" number ", n as u64),
        Some(PduNumber::Long(n)) => write_numbered(out, b" number ", n as u64),
    }
}

/// Writes the body of a packet, if it is not empty.
fn write_body(out: &mut Octets, body: &[u8]) -> Result<(), Memory>
    ensures { OnOk result (out.new ≡ out.old ++ body_text body.now) }
{
    if body.is_empty() {
        return Ok(());
    }
    out.extend(b" body ")?;
    write_hex(out, body)
}

/// Writes a packet.
fn write_packet(out: &mut Octets, packet: &Packet<'_>) -> Result<(), Memory>
    ensures { OnOk result (out.new ≡ out.old ++ packet_text (view packet.now)) }
{
    write_kind(out, packet.kind)?;
    write_numbered(out, b" teid ", packet.teid as u64)?;
    write_container(out, packet)?;
    write_pdu_number(out, packet.number)?;
    write_body(out, packet.body)
}

/// Writes why octets are no packet.
fn write_gtp_fault(out: &mut Octets, error: GtpErr) -> Result<(), Memory>
    ensures { OnOk result (out.new ≡ out.old ++ gtp_fault_text error) }
{
    match error {
        GtpErr::Short { place } => write_bad(out, b"short", place),
        GtpErr::Version { place } => write_bad(out, b"version", place),
        GtpErr::Length { place } => write_bad(out, b"length", place),
        GtpErr::Extension { place } => write_bad(out, b"extension", place),
        GtpErr::UnknownRequired { place } => write_bad(out, b"unknownrequired", place),
        GtpErr::Kind { place } => write_bad(out, b"kind", place),
    }
}

/// The line that octets are shown as, as a GTP-U packet.
fn show_packet(alloc: Global, octets: &[u8]) -> Result<Octets, Memory>
    ensures { IfOk result (λ text. IsShown Kind.Gtp octets.now text) }
{
    let mut out = Octets::new(alloc);
    match gtpu::decode(octets) {
        Ok(packet) => write_packet(&mut out, &packet)?,
        Err(error) => write_gtp_fault(&mut out, error)?,
    }
    out.push(b'\n')?;
    Ok(out)
}

/// Writes a flag.
fn write_flag(out: &mut Octets, word: &[u8], is_set: bool) -> Result<(), Memory>
    ensures { OnOk result (out.new ≡ out.old ++ word.now ++ flag is_set) }
{
    out.extend(word)?;
    out.push(if is_set { b'1' } else { b'0' })
}

/// Writes the highest sequence number, if there is one.
fn write_highest(out: &mut Octets, highest: Option<u32>) -> Result<(), Memory>
    ensures { OnOk result (out.new ≡ out.old ++ highest_text highest) }
{
    match highest {
        None => Ok(()),
        Some(sn) => write_numbered(out, b" highest ", sn as u64),
    }
}

/// Writes ranges of lost numbers.
fn write_ranges(out: &mut Octets, lost: &[Range]) -> Result<(), Memory>
    ensures { OnOk result (out.new ≡ out.old ++ flat_map range_text lost.now) }
{
    for range in lost {
        write_numbered(out, b" ", range.from as u64)?;
        write_numbered(out, b"-", range.to as u64)?;
    }
    Ok(())
}

/// Writes the lost numbers, if there are any.
fn write_lost(out: &mut Octets, lost: &[Range]) -> Result<(), Memory>
    ensures { OnOk result (out.new ≡ out.old ++ lost_text lost.now) }
{
    if lost.is_empty() {
        return Ok(());
    }
    out.extend(b" lost")?;
    write_ranges(out, lost)
}

/// Writes a frame.
fn write_frame(out: &mut Octets, frame: &Frame) -> Result<(), Memory>
    ensures { OnOk result (out.new ≡ out.old ++ frame_text frame.now) }
{
    match frame {
        Frame::User {
            number,
            user,
            repeat,
        } => {
            write_numbered(out, b"user number ", *number as u64)?;
            write_flag(out, b" user ", *user)?;
            write_flag(out, b" repeat ", *repeat)
        }
        Frame::Status { highest, lost } => {
            out.extend(b"status")?;
            write_highest(out, *highest)?;
            write_lost(out, lost.as_slice())
        }
    }
}

/// The line for why octets are no frame.
fn show_nru_fault(alloc: Global, error: NruErr) -> Result<Octets, Memory>
    ensures { IfOk result (IsNruFaultLine error) }
{
    let mut out = Octets::new(alloc);
    match error {
        NruErr::Short { place } => write_bad(&mut out, b"short", place)?,
        NruErr::Kind { place } => write_bad(&mut out, b"kind", place)?,
        NruErr::Ranges { place } => write_bad(&mut out, b"ranges", place)?,
        NruErr::Trailing { place } => write_bad(&mut out, b"trailing", place)?,
        NruErr::Memory => return Err(Memory),
    }
    out.push(b'\n')?;
    Ok(out)
}

/// The line that octets are shown as, as an NR-U frame.
fn show_frame(alloc: Global, octets: &[u8]) -> Result<Octets, Memory>
    ensures { IfOk result (λ text. IsShown Kind.Nru octets.now text) }
{
    let mut out = Octets::new(alloc);
    match nr_u::decode(alloc, octets) {
        Ok(frame) => write_frame(&mut out, &frame)?,
        Err(error) => return show_nru_fault(alloc, error),
    }
    out.push(b'\n')?;
    Ok(out)
}

/// The line that octets are shown as.
pub fn show(alloc: Global, kind: Kind, octets: &[u8]) -> Result<Octets, Memory>
    ensures { IfOk result (λ text. IsShown kind octets.now text) }
{
    let mut out = Octets::new(alloc);
    match kind {
        Kind::Pdu12 => show_pdu(alloc, SnLen::S12, &mut out, octets)?,
        Kind::Pdu18 => show_pdu(alloc, SnLen::S18, &mut out, octets)?,
        Kind::Gtp => return show_packet(alloc, octets),
        Kind::Nru => return show_frame(alloc, octets),
    }
    out.push(b'\n')?;
    Ok(out)
}
