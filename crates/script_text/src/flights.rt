//! Flights and records, written.

ghost use Rattle.std.specs.Prelude.{◌≡◌, ◌++◌, ◌∷◌, [], OnOk, codes, map};
ghost use Rattle.std.specs.Fmt.{decimal};
ghost use Rattle.transcript.specs.Text.{flight_text, rec_text, plan_text, pair_text};
ghost use Rattle.transcript.specs.Words.{spaced, octets_or_dash};
ghost use Rattle.dc_base.specs.declared.flights.Flight.TheVariants.{Air};

use crate::fields::{Field, write_pair, write_plan, write_spaced};
use dc_base::{DrbId, Flight, Gen, Memory, Octets, Plan, Rec, Seq, StatusTransfer, Tag};
use dc_text::write_text;
use pdcp_pdu::is_data;

/// Writes a flight.
pub fn write_flight(out: &mut Octets, flight: &Flight) -> Result<(), Memory>
    ensures { OnOk result (out.new ≡ out.old ++ flight_text flight.now) }
{
    match flight {
        Flight::Air {
            id,
            g,
            num,
            tag,
            pdu,
        } => write_air(out, *id, *g, *num, *tag, pdu),
        Flight::Ack { id, g, num } => write_counted(out, "ack", *id, *g, *num),
        Flight::Tun { tag, packet } => {
            write_spaced(
                out,
                &[Field::Text("gtp"), Field::Tag(*tag), Field::Payload(packet)],
            )
        }
        Flight::Sdu { id, g, sdu } => write_spaced(
            out,
            &[
                Field::Text("sdu"),
                Field::Id(*id),
                Field::Number(*g),
                Field::Payload(sdu),
            ],
        ),
        Flight::End { id, g } => {
            write_spaced(
                out,
                &[Field::Text("end"), Field::Id(*id), Field::Number(*g)],
            )
        }
        Flight::Told { id, g, count } => write_counted(out, "told", *id, *g, *count),
        Flight::Ctl(rec) => write_record(out, rec),
    }
}

/// Writes a PDCP PDU on the air; only a data PDU has a tag.
fn write_air(
    out: &mut Octets,
    id: DrbId,
    g: Gen,
    num: u32,
    tag: Tag,
    pdu: &Octets,
) -> Result<(), Memory>
    ensures { OnOk result (out.new ≡ out.old ++ flight_text (Air id g num tag pdu.now)) }
{
    let (id, g, num) = (Field::Id(id), Field::Number(g), Field::Number(num));
    if is_data(pdu.as_slice()) {
        write_spaced(
            out,
            &[
                Field::Text("pdu"),
                id,
                g,
                num,
                Field::Tag(tag),
                Field::Payload(pdu),
            ],
        )
    } else {
        write_spaced(out, &[Field::Text("ctl"), id, g, num, Field::Payload(pdu)])
    }
}

/// Writes a word, a bearer, a generation of it, and a number or a count in that generation.
fn write_counted(out: &mut Octets, word: &str, id: DrbId, g: Gen, count: u32) -> Result<(), Memory>
    ensures { OnOk result (out.new ≡ out.old ++ spaced (word.now ∷ decimal id ∷ decimal g ∷ decimal count ∷ [])) }
{
    write_spaced(
        out,
        &[
            Field::Text(word),
            Field::Id(id),
            Field::Number(g),
            Field::Number(count),
        ],
    )
}

/// Writes a record.
fn write_record(out: &mut Octets, rec: &Rec) -> Result<(), Memory>
    ensures { OnOk result (out.new ≡ out.old ++ rec_text rec.now) }
{
    match rec {
        Rec::Reconf { plan, key: _ } => write_with_plan(out, "reconf", plan),
        Rec::Rcomp { g } => write_with_gen(out, "rcomp", *g),
        Rec::Scgf { failed } => write_failed(out, failed),
        Rec::Recov { id } => write_spaced(out, &[Field::Text("recov"), Field::Id(*id)]),
        Rec::Recovd { id } => write_spaced(out, &[Field::Text("recovd"), Field::Id(*id)]),
        Rec::Addreq { plan, key: _ } => write_with_plan(out, "addreq", plan),
        Rec::Addack { g } => write_with_gen(out, "addack", *g),
        Rec::Addrej { g } => write_with_gen(out, "addrej", *g),
        Rec::Modreq { plan, key: _ } => write_with_plan(out, "modreq", plan),
        Rec::Modack { g } => write_with_gen(out, "modack", *g),
        Rec::Modrej { g } => write_with_gen(out, "modrej", *g),
        Rec::Recfg { g } => write_with_gen(out, "recfg", *g),
        Rec::Relreq { plan } => write_with_plan(out, "relreq", plan),
        Rec::Relack { g } => write_with_gen(out, "relack", *g),
        Rec::Relrej { g } => write_with_gen(out, "relrej", *g),
        Rec::Uecr { g } => write_with_gen(out, "uecr", *g),
        Rec::Snst { status } => write_status(out, status),
        Rec::Moved { g, id } => {
            write_spaced(
                out,
                &[Field::Text("moved"), Field::Number(*g), Field::Id(*id)],
            )
        }
        Rec::Scgn { id, g } => {
            write_text(out, "scgn ")?;
            write_pair(out, *id, *g)
        }
        Rec::Modrqd => write_text(out, "modrqd"),
        Rec::Modcnf { g } => write_with_gen(out, "modcnf", *g),
        Rec::Modref { word } => { write_spaced(out, &[Field::Text("modref"), Field::Cause(*word)]) }
        Rec::Chgrqd => write_text(out, "chgrqd"),
        Rec::Chgcnf { plan } => write_with_plan(out, "chgcnf", plan),
        Rec::Chgref { word } => { write_spaced(out, &[Field::Text("chgref"), Field::Cause(*word)]) }
        Rec::Relrqd => write_text(out, "relrqd"),
        Rec::Relcnf { plan } => write_with_plan(out, "relcnf", plan),
    }
}

/// Writes the word of a record and a generation.
fn write_with_gen(out: &mut Octets, word: &str, g: Gen) -> Result<(), Memory>
    ensures { OnOk result (out.new ≡ out.old ++ spaced (word.now ∷ decimal g ∷ [])) }
{
    write_spaced(out, &[Field::Text(word), Field::Number(g)])
}

/// Writes the word of a record and a plan.
fn write_with_plan(out: &mut Octets, word: &str, plan: &Plan) -> Result<(), Memory>
    ensures { OnOk result (out.new ≡ out.old ++ spaced (word.now ∷ plan_text plan.now ∷ [])) }
{
    write_text(out, word)?;
    out.push(b' ')?;
    write_plan(out, plan)
}

/// Writes SCG failure information: each bearer and generation that failed.
fn write_failed(out: &mut Octets, failed: &Seq<(DrbId, Gen)>) -> Result<(), Memory>
    ensures { OnOk result (out.new ≡ out.old ++ spaced (codes "scgf" ∷ map pair_text failed.now)) }
{
    write_text(out, "scgf")?;
    for pair in failed.as_slice() {
        out.push(b' ')?;
        write_pair(out, pair.0, pair.1)?;
    }
    Ok(())
}

/// Writes SN STATUS TRANSFER.
fn write_status(out: &mut Octets, status: &StatusTransfer) -> Result<(), Memory>
    ensures { OnOk result (out.new ≡ out.old ++ spaced (codes "snst" ∷ decimal status.now.g ∷ decimal status.now.id ∷ decimal status.now.ul ∷ octets_or_dash status.now.bits ∷ decimal status.now.dl ∷ [])) }
{
    write_spaced(
        out,
        &[
            Field::Text("snst"),
            Field::Number(status.g),
            Field::Id(status.id),
            Field::Number(status.ul),
            Field::Bits(&status.bits),
            Field::Number(status.dl),
        ],
    )
}
