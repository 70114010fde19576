//! What stands on a link.

ghost use Rattle.std.specs.Prelude.{◌≡◌, IfOk};

use crate::identities::{DrbId, Gen, Tag};
use crate::lists::{Memory, Octets};
use crate::records::Rec;

/// What stands on a link.
#[derive(Debug, Drop, PartialEq, Eq)]
pub enum Flight {
    /// A PDCP PDU on an air leg, with its number on that leg from 0: a data PDU if bit 7 of its first octet is 1,
    /// and else a control PDU.
    Air {
        id: DrbId,
        g: Gen,
        num: u32,
        tag: Tag,
        pdu: Octets,
    },
    /// The confirm of the PDU of that number on the leg the other way.
    Ack {
        id: DrbId,
        g: Gen,
        num: u32,
    },
    /// A GTP-U packet in a tunnel (TS 29.281).
    Tun {
        tag: Tag,
        packet: Octets,
    },
    /// A downlink SDU on its way to a secondary anchor.
    Sdu {
        id: DrbId,
        g: Gen,
        sdu: Octets,
    },
    /// The core's End Marker of a path.
    End {
        id: DrbId,
        g: Gen,
    },
    /// The least COUNT that a secondary anchor has not confirmed.
    Told {
        id: DrbId,
        g: Gen,
        count: u32,
    },
    /// A record.
    Ctl(Rec),
}

impl Flight {
    /// An equal flight.
    pub fn copy(&self) -> Result<Flight, Memory>
        ensures { IfOk result (λ made. made ≡ self.now) }
    {
        Ok(match self {
            Flight::Air {
                id,
                g,
                num,
                tag,
                pdu,
            } => Flight::Air {
                id: *id,
                g: *g,
                num: *num,
                tag: *tag,
                pdu: pdu.copy()?,
            },
            Flight::Ack { id, g, num } => Flight::Ack {
                id: *id,
                g: *g,
                num: *num,
            },
            Flight::Tun { tag, packet } => Flight::Tun {
                tag: *tag,
                packet: packet.copy()?,
            },
            Flight::Sdu { id, g, sdu } => Flight::Sdu {
                id: *id,
                g: *g,
                sdu: sdu.copy()?,
            },
            Flight::End { id, g } => Flight::End { id: *id, g: *g },
            Flight::Told { id, g, count } => Flight::Told {
                id: *id,
                g: *g,
                count: *count,
            },
            Flight::Ctl(rec) => Flight::Ctl(rec.copy()?),
        })
    }
}
