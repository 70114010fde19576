//! Why octets are no packet.

use thiserror::Error;

/// The first check that fails, with the place of its octet, from 0.
#[derive(Clone, Copy, Debug, PartialEq, Eq, Error)]
pub enum GtpErr {
    /// The octets end before octet 8, or before octet 12 where a flag announces it. The place is their length.
    #[error("short at {place}")]
    Short { place: usize },
    /// The version is not 1, or PT is not 1.
    #[error("version at {place}")]
    Version { place: usize },
    /// The length field is not the number of octets after octet 7.
    #[error("length at {place}")]
    Length { place: usize },
    /// An extension header is cut off, has a wrong length, or is a second container or number. The place
    /// is that of its length octet.
    #[error("extension at {place}")]
    Extension { place: usize },
    /// An extension header that must be understood is of an unknown type. The place is the octet that names it.
    #[error("unknown required extension at {place}")]
    UnknownRequired { place: usize },
    /// The message type is none that is taken here.
    #[error("kind at {place}")]
    Kind { place: usize },
}
