//! The sending end of a tunnel. After `Memory` it is as before.

ghost use Rattle.std.specs.Prelude.{◌≡◌, ◌+◌, ◌^◌, ◌<◌, ◌≤◌, true, false, List, [], ◌∷◌, ◌++◌, length, Some, None, IfSome, IfOk, OnOk, OnErr};
ghost use Rattle.dc_base.specs.Count.{bits};
ghost use Rattle.gtpu.specs.declared.packet.GtpKind.TheVariants.{GPdu};
ghost use Rattle.gtpu.specs.Content.{view};
ghost use Rattle.gtpu.specs.Grammar.{IsPacket};
ghost use Rattle.gtpu.specs.Spelling.{spelling, FitsLong};
ghost use Rattle.nr_u.specs.declared.frame.Frame.TheVariants.{User};
ghost use Rattle.nr_u.specs.Frames.{written};
ghost use Rattle.std.specs.Option.{option_map};
ghost use Rattle.forward.specs.Load.{Sdu};
ghost use Rattle.forward.specs.Outgoing.{pdu_number, sdu_packet, total_packet, end_marker, IsWritten};
ghost use Rattle.forward.specs.Tunnel.{IsSentIn};

use dc_base::{Memory, Octets, SnLen};
use gtpu::{GtpKind, Packet, PduNumber};
use nr_u::Frame;
use std::alloc::Global;
use std::marker::Model;

/// The sending end of a forwarding tunnel. Contracts see its TEID, the forward number of the next SDU, and whether
/// it is closed. It counts the numbers that it gave itself, and `given` tells them: a caller needs no count.
#[derive(Debug, Drop)]
pub struct ForwardOut {
    alloc: Global,
    /// The tunnel endpoint of the receiving end.
    teid: u32,
    /// The forward number of the next SDU.
    next: u32,
    /// Whether the total was given.
    closed: bool,
}

impl Model for ForwardOut {
    ghost use Rattle.forward.specs.Outgoing.{Outgoing};

    ghost Value = { Outgoing };

    ghost view = { λ a. record { teid = a.teid; next = a.next; closed = a.closed } };
}

/// The PDCP PDU number that carries an SN of this length.
fn pdu_number(n: SnLen, sn: u32) -> PduNumber
    requires { sn < 2 ^ bits n }
    ensures value { result ≡ pdu_number n sn }
    ensures fits { FitsLong result }
{
    match n {
        SnLen::S12 => PduNumber::Short(sn as u16),
        SnLen::S18 => PduNumber::Long(sn),
    }
}

/// The PDCP PDU number of an SN that may be absent.
fn pdu_number_of(n: SnLen, sn: Option<u32>) -> Option<PduNumber>
    requires { IfSome sn (λ s. s < 2 ^ bits n) }
    ensures value { result ≡ option_map (pdu_number n) sn }
    ensures fits { IfSome result FitsLong }
{
    match sn {
        None => None,
        Some(sn) => Some(pdu_number(n, sn)),
    }
}

/// A G-PDU of these parts.
fn g_pdu<'a>(
    teid: u32,
    container: &'a [u8],
    number: Option<PduNumber>,
    body: &'a [u8],
) -> Packet<'a>
    ensures { view result ≡ record { kind = GPdu; teid = teid; container = Some container.entry.now; number = number; body = body.entry.now } }
{
    let container = Some(container);
    Packet {
        kind: GtpKind::GPdu,
        teid,
        container,
        number,
        body,
    }
}

/// The octets of a G-PDU with a user data frame of this number; `user` says whether user data is with it.
fn write_user_data(
    alloc: Global,
    teid: u32,
    number: u32,
    user: bool,
    sn: Option<PduNumber>,
    body: &[u8],
) -> Result<Octets, Memory>
    requires number { number < 2 ^ 24 }
    requires sn { IfSome sn FitsLong }
    requires body { length body.now ≤ 9000 }
    ensures { IfOk result (λ octets. IsWritten (record { kind = GPdu; teid = teid; container = Some (written (User number user false)); number = sn; body = body.now }) octets) }
{
    let frame = Frame::User {
        number,
        user,
        repeat: false,
    };
    let container = nr_u::encode(alloc, &frame)?;
    gtpu::encode(alloc, &g_pdu(teid, container.as_slice(), sn, body))
}

impl ForwardOut {
    /// A tunnel to this endpoint. Its packets are made with memory from `alloc`.
    pub fn new(alloc: Global, teid: u32) -> ForwardOut
        ensures teid { result.teid ≡ teid }
        ensures next { result.next ≡ 0 }
        ensures open { result.closed ≡ false }
    {
        ForwardOut {
            alloc,
            teid,
            next: 0,
            closed: false,
        }
    }

    /// How many forward numbers were given. `next` and `close` ask that they are fewer than 2^24.
    pub fn given(&self) -> u32
        ensures { result ≡ self.now.next }
    {
        self.next
    }

    /// Whether the tunnel was closed. `next` and `close` ask that it was not.
    pub fn is_closed(&self) -> bool
        ensures { result ≡ self.now.closed }
    {
        self.closed
    }

    /// The packet of an SDU under the next number.
    fn sdu_packet(&self, n: SnLen, sn: Option<u32>, sdu: &[u8]) -> Result<Octets, Memory>
        requires number { self.now.next < 2 ^ 24 }
        requires sn { IfSome sn (λ s. s < 2 ^ bits n) }
        requires size { length sdu.now ≤ 9000 }
        ensures { IfOk result (IsWritten (sdu_packet self.now.teid n self.now.next (sn, sdu.now))) }
    {
        let number = pdu_number_of(n, sn);
        write_user_data(self.alloc, self.teid, self.next, true, number, sdu)
    }

    /// The packet for the next SDU, with its SN if it has one. Fewer than 2^24 numbers were given before, the
    /// tunnel is not closed, the SN has the length `n`, and the SDU has at most 9000 octets.
    pub fn next(&mut self, n: SnLen, sn: Option<u32>, sdu: &[u8]) -> Result<Octets, Memory>
        requires number { self.old.next < 2 ^ 24 }
        requires open { self.old.closed ≡ false }
        requires sn { IfSome sn (λ s. s < 2 ^ bits n) }
        requires size { length sdu.now ≤ 9000 }
        ensures packet { IfOk result (IsWritten (sdu_packet self.old.teid n self.old.next (sn, sdu.now))) }
        // It is SDU k of the list, after the k that were given before.
        ensures sent { IfOk result (λ octets. (sdus : List Sdu) → length sdus ≡ self.old.next → IsSentIn (record { sdus = sdus ++ (sn, sdu.now) ∷ []; closed = false }) octets) }
        ensures teid { self.new.teid ≡ self.old.teid }
        ensures next { OnOk result (self.new.next ≡ self.old.next + 1) }
        ensures open { self.new.closed ≡ false }
        ensures err { OnErr result (self.new ≡ self.old) }
    {
        let octets = self.sdu_packet(n, sn, sdu)?;
        self.next += 1;
        Ok(octets)
    }

    /// The total of the SDUs so far, and the End Marker.
    fn last_packets(&self) -> Result<(Octets, Octets), Memory>
        requires { self.now.next < 2 ^ 24 }
        ensures total { IfOk result (λ x. IsWritten (total_packet self.now.teid self.now.next) x.0) }
        ensures end_marker { IfOk result (λ x. IsWritten (end_marker self.now.teid) x.1) }
    {
        let total = write_user_data(self.alloc, self.teid, self.next, false, None, &[])?;
        let end_marker = gtpu::encode(
            self.alloc,
            &Packet {
                kind: GtpKind::EndMarker,
                teid: self.teid,
                container: None,
                number: None,
                body: &[],
            },
        )?;
        Ok((total, end_marker))
    }

    /// The packets that close the tunnel: the total of SDUs, and the End Marker (TS 29.281, 7.3.2). No `next` and
    /// no `close` comes after it. Fewer than 2^24 numbers were given before.
    pub fn close(&mut self) -> Result<(Octets, Octets), Memory>
        requires number { self.old.next < 2 ^ 24 }
        requires open { self.old.closed ≡ false }
        ensures total { IfOk result (λ x. IsWritten (total_packet self.old.teid self.old.next) x.0) }
        ensures end_marker { IfOk result (λ x. IsWritten (end_marker self.old.teid) x.1) }
        // Only now a total is sent: it is the number of all SDUs that were given.
        ensures sent { IfOk result (λ x. (sdus : List Sdu) → length sdus ≡ self.old.next → IsSentIn (record { sdus = sdus; closed = true }) x.0 × IsSentIn (record { sdus = sdus; closed = true }) x.1) }
        ensures ok { OnOk result (self.new ≡ record self.old { closed = true }) }
        ensures err { OnErr result (self.new ≡ self.old) }
    {
        let packets = self.last_packets()?;
        self.closed = true;
        Ok(packets)
    }
}
