//! What a packet says.

/// The message types that are taken here (TS 29.281, 6.1).
#[derive(Clone, Copy, Debug, PartialEq, Eq)]
pub enum GtpKind {
    /// 255: user data.
    GPdu,
    /// 254: no user data follows in the tunnel.
    EndMarker,
    /// 1: asks whether the peer is alive.
    EchoRequest,
    /// 2: the answer to an Echo Request.
    EchoResponse,
    /// 26: the tunnel is unknown to the receiver.
    ErrorIndication,
}

/// A PDCP PDU number, as an extension header of a G-PDU carries it.
#[derive(Clone, Copy, Debug, PartialEq, Eq)]
pub enum PduNumber {
    /// 16 bits, in an extension header of type C0 (TS 29.281, 5.2.2.2).
    Short(u16),
    /// Below 2^18, in an extension header of type 82, the long PDCP PDU number (TS 29.281, 5.2.2.2A).
    Long(u32),
}

/// A packet, whose parts lie elsewhere.
#[derive(Clone, Copy, Debug, PartialEq, Eq)]
pub struct Packet<'a> {
    /// The message type.
    pub kind: GtpKind,
    /// The tunnel endpoint identifier (TS 29.281, 5.1).
    pub teid: u32,
    /// The content of the NR RAN container, an extension header of type 84 (TS 29.281, 5.2.2.6): 4k - 2 octets.
    pub container: Option<&'a [u8]>,
    /// The PDCP PDU number, in an extension header of either type.
    pub number: Option<PduNumber>,
    /// All behind the header.
    pub body: &'a [u8],
}
