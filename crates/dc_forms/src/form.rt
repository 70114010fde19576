//! The forms.

use dc_base::{Dir, DrbId, Octets};

/// What octets are shown as.
#[derive(Clone, Copy, Debug, PartialEq, Eq)]
pub enum Kind {
    /// A PDCP PDU with a sequence number of 12 bits.
    Pdu12,
    /// A PDCP PDU with a sequence number of 18 bits.
    Pdu18,
    /// A GTP-U packet.
    Gtp,
    /// An NR-U frame.
    Nru,
}

/// A form of the command line that reads no source.
#[derive(Drop)]
pub enum Form {
    /// The keys under a root key and an SN Counter.
    Keys {
        root: [u8; 32],
        counter: u16,
    },
    /// A text of 1 to 9000 octets under 128-NEA2.
    Cipher {
        key: [u8; 16],
        count: u32,
        id: DrbId,
        dir: Dir,
        text: Octets,
    },
    /// Octets, at least one, and what they are to be shown as.
    Show {
        kind: Kind,
        octets: Octets,
    },
}
