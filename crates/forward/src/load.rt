//! What a packet of a forwarding tunnel carries.

ghost use Rattle.std.specs.Prelude.{◌≡◌, Ok, IfOk, IfSome};
ghost use Rattle.std.specs.Option.{option_map};
ghost use Rattle.std.specs.Result.{result_ok};
ghost use Rattle.gtpu.specs.declared.packet.GtpKind.TheVariants.{GPdu};
ghost use Rattle.gtpu.specs.Content.{view};
ghost use Rattle.nr_u.specs.Frames.{IsFrame};
ghost use Rattle.nr_u.specs.Reading.{decoded};
ghost use Rattle.forward.specs.Load.{sn_of, Carries};
ghost use Rattle.forward.specs.Reading.{total_in, load_with, load_in, carried, said_load};

use dc_base::Memory;
use gtpu::{GtpKind, Packet, PduNumber};
use nr_u::{Frame, NruErr};
use std::alloc::Global;

/// What a packet of a forwarding tunnel carries; an SDU lies where the packet does.
#[derive(Clone, Copy, Debug, PartialEq, Eq)]
pub enum Load<'a> {
    /// An SDU with its forward number (24 bits in a packet), and its PDCP SN if it has one.
    Piece {
        number: u32,
        sn: Option<u32>,
        sdu: &'a [u8],
    },
    /// The number of all SDUs (24 bits in a packet).
    Total {
        number: u32,
    },
    /// Nothing that counts.
    Nothing,
}

/// The SN that a PDCP PDU number carries.
fn sn_in(number: Option<PduNumber>) -> Option<u32>
    ensures { result ≡ option_map sn_of number }
{
    match number {
        None => None,
        Some(PduNumber::Short(sn)) => Some(u32::from(sn)),
        Some(PduNumber::Long(sn)) => Some(sn),
    }
}

/// The frame that octets are, if they are one.
pub fn frame_in(alloc: Global, octets: &[u8]) -> Result<Option<Frame>, Memory>
    ensures read { IfOk result (λ found. found ≡ result_ok (decoded octets.now)) }
    ensures frame { IfOk result (λ found. IfSome found (IsFrame octets.now)) }
{
    match nr_u::decode(alloc, octets) {
        Ok(frame) => Ok(Some(frame)),
        Err(NruErr::Memory) => Err(Memory),
        Err(_) => Ok(None),
    }
}

/// The total in a packet, which has neither number nor body then.
fn total_in<'a>(number: u32, p: &Packet<'a>) -> Load<'a>
    ensures { said_load result ≡ total_in number p.now.number p.now.body.now }
{
    match p.number {
        Some(_) => Load::Nothing,
        None => {
            if p.body.is_empty() {
                Load::Total { number }
            } else {
                Load::Nothing
            }
        }
    }
}

/// What a packet with this frame carries.
fn load_with<'a>(p: &Packet<'a>, frame: &Frame) -> Load<'a>
    ensures { said_load result ≡ load_with (view p.now) (Ok frame.now) }
{
    match frame {
        Frame::User { number, user, .. } => {
            if *user {
                Load::Piece {
                    number: *number,
                    sn: sn_in(p.number),
                    sdu: p.body,
                }
            } else {
                total_in(*number, p)
            }
        }
        Frame::Status { .. } => Load::Nothing,
    }
}

/// What a packet of a forwarding tunnel carries, by its container, number and body. Its message type is not asked.
pub fn load_in<'a>(alloc: Global, p: &Packet<'a>) -> Result<Load<'a>, Memory>
    ensures load { IfOk result (λ load. said_load load ≡ load_in (view p.now) (view p.now).container) }
    ensures carries { p.now.kind ≡ GPdu → IfOk result (λ load. Carries (view p.now) (said_load load)) }
{
    let Some(container) = p.container else {
        return Ok(Load::Nothing);
    };
    match frame_in(alloc, container)? {
        None => Ok(Load::Nothing),
        Some(frame) => Ok(load_with(p, &frame)),
    }
}

/// What any packet carries: only a G-PDU carries something.
pub fn carried<'a>(alloc: Global, p: &Packet<'a>) -> Result<Load<'a>, Memory>
    ensures load { IfOk result (λ load. said_load load ≡ carried (view p.now)) }
    ensures carries { IfOk result (λ load. Carries (view p.now) (said_load load)) }
{
    match p.kind {
        GtpKind::GPdu => load_in(alloc, p),
        _ => Ok(Load::Nothing),
    }
}
