//! What comes of a step of a bearer at a node, and what is read of it.

use dc_base::{Cell, DrbId, Flight, Gen, LinkId, Octets, Seq, SnLen, Tag};

/// A PDU that was put on a leg: its number there, whether an earlier send put a PDU of its COUNT on a leg, and its octets,
/// with its COUNT if it is a data PDU.
#[derive(Debug, Drop)]
pub struct OnLeg {
    pub cell: Cell,
    pub num: u32,
    pub repeat: bool,
    pub pdu: (Tag, Octets),
}

/// What an anchor gives in one step: whether it adopted, the SDUs handed up with their COUNTs, Low where it rose, and the
/// sends.
#[derive(Debug, Drop)]
pub struct AnchorOut {
    pub adopted: bool,
    pub ups: Seq<(u32, Octets)>,
    pub low: Option<u32>,
    pub sends: Seq<(LinkId, Flight)>,
}

/// What the terminal's half of a bearer gives in one step: the SDUs handed up with their COUNTs, Low where it rose, and the
/// sends.
#[derive(Debug, Drop)]
pub struct HalfOut {
    pub ups: Seq<(u32, Octets)>,
    pub low: Option<u32>,
    pub sends: Seq<(LinkId, Flight)>,
}

/// The SN length of a PDCP entity, its RX_DELIV and its Low.
#[derive(Clone, Copy, Debug, PartialEq, Eq)]
pub struct Edges {
    pub n: SnLen,
    pub deliv: u32,
    pub low: u32,
}

/// By which edge of its receiver's windows a flight ages: a data PDU by that of the receiving side, a delivery status by that
/// of the sending side, and other flights by none.
#[derive(Clone, Copy, Debug, PartialEq, Eq)]
pub enum Weight {
    DataPduOf { id: DrbId, g: Gen, count: u32 },
    DeliveryOf { id: DrbId, g: Gen, count: u32 },
    Weightless,
}

/// The window of a bearer's downlink: how many submissions were accepted, and the greatest COUNT that an anchor told as its
/// Low.
#[derive(Clone, Copy, Debug, PartialEq, Eq)]
pub struct Window {
    pub accepted: u32,
    pub told: u32,
}
