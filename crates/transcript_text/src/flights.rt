//! Flights, read.

ghost use Rattle.std.specs.Prelude.{◌≡◌, ◌∷◌, IfOk, IfErr};
ghost use Rattle.transcript_text.specs.Fields.{flight_fields};
ghost use Rattle.transcript_text.specs.Grammar.{flight_kinds};
ghost use Rattle.transcript_text.specs.Places.{IsFaultAt};
ghost use Rattle.transcript_text.specs.Ranges.{IsFlight};
ghost use Rattle.transcript_text.specs.Spelling.{HidesNothing};
ghost use Rattle.transcript_text.specs.Words.{carried_word};

use crate::fault::LineFault;
use crate::field_reader::FieldReader;
use crate::records::read_record;
use crate::spelling::{ControlPdu, DataPdu};
use crate::words::Carried;
use dc_base::{DrbId, Flight, Gen, Octets, Tag};
use std::alloc::Global;

/// The fields after the first word of a flight.
pub fn read_flight(
    alloc: Global,
    carried: Carried,
    fields: &mut FieldReader,
) -> Result<Flight, LineFault>
    ensures read { IfOk result (λ f. flight_fields f ≡ carried_word carried ∷ fields.old.fields) }
    ensures range { IfOk result IsFlight }
    ensures shown { IfOk result HidesNothing }
    ensures fault { IfErr result (λ f. IsFaultAt (flight_kinds carried fields.old.fields) fields.old f) }
{
    match carried {
        Carried::Data => {
            let row: (DrbId, Gen, u32, Tag, DataPdu) = fields.five(alloc)?;
            Ok(Flight::Air {
                id: row.0,
                g: row.1,
                num: row.2,
                tag: row.3,
                pdu: row.4.0,
            })
        }
        Carried::Control => {
            let row: (DrbId, Gen, u32, ControlPdu) = fields.four(alloc)?;
            Ok(Flight::Air {
                id: row.0,
                g: row.1,
                num: row.2,
                tag: Tag::none(),
                pdu: row.3.0,
            })
        }
        Carried::Ack => {
            let (id, g, num): (DrbId, Gen, u32) = fields.three(alloc)?;
            Ok(Flight::Ack { id, g, num })
        }
        Carried::Packet => {
            let (tag, packet): (Tag, Octets) = fields.two(alloc)?;
            Ok(Flight::Tun { tag, packet })
        }
        Carried::Sdu => {
            let (id, g, sdu): (DrbId, Gen, Octets) = fields.three(alloc)?;
            Ok(Flight::Sdu { id, g, sdu })
        }
        Carried::End => {
            let (id, g): (DrbId, Gen) = fields.two(alloc)?;
            Ok(Flight::End { id, g })
        }
        Carried::Told => {
            let (id, g, count): (DrbId, Gen, u32) = fields.three(alloc)?;
            Ok(Flight::Told { id, g, count })
        }
        Carried::Record(kind) => {
            let rec = read_record(alloc, kind, fields)?;
            Ok(Flight::Ctl(rec))
        }
    }
}
