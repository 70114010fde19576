//! Records, read.

ghost use Rattle.std.specs.Prelude.{◌≡◌, ◌∷◌, IfOk, IfErr};
ghost use Rattle.dc_base.specs.declared.records.RecKind.TheVariants as kind;
ghost use Rattle.transcript_text.specs.Fields.{rec_fields, status_fields};
ghost use Rattle.transcript_text.specs.Grammar.{record_kinds};
ghost use Rattle.transcript_text.specs.Places.{IsFaultAt};
ghost use Rattle.transcript_text.specs.Ranges.{IsRecord, IsStatus};
ghost use Rattle.transcript_text.specs.Spelling.{HidesNoKey};
ghost use Rattle.transcript_text.specs.Words.{record_word};

use crate::fault::LineFault;
use crate::field_reader::FieldReader;
use crate::plans::read_plan;
use crate::spelling::Bits;
use dc_base::{DrbId, Gen, Rec, RecKind, StatusTransfer, Word};
use std::alloc::Global;

/// The octets of a key that no text shows.
const NO_KEY: [u8; 32] = [0; 32];

/// The fields after the name of a record.
pub fn read_record(alloc: Global, kind: RecKind, fields: &mut FieldReader) -> Result<Rec, LineFault>
    ensures read { IfOk result (λ r. rec_fields r ≡ record_word kind ∷ fields.old.fields) }
    ensures range { IfOk result IsRecord }
    ensures shown { IfOk result HidesNoKey }
    ensures fault { IfErr result (λ f. IsFaultAt (record_kinds kind fields.old.fields) fields.old f) }
{
    match kind {
        RecKind::Reconf => {
            let plan = read_plan(alloc, fields)?;
            Ok(Rec::Reconf { plan, key: NO_KEY })
        }
        RecKind::Rcomp => {
            let g: Gen = fields.one(alloc)?;
            Ok(Rec::Rcomp { g })
        }
        RecKind::Scgf => {
            let failed = fields.all(alloc)?;
            Ok(Rec::Scgf { failed })
        }
        RecKind::Recov => {
            let id: DrbId = fields.one(alloc)?;
            Ok(Rec::Recov { id })
        }
        RecKind::Recovd => {
            let id: DrbId = fields.one(alloc)?;
            Ok(Rec::Recovd { id })
        }
        RecKind::Addreq => {
            let plan = read_plan(alloc, fields)?;
            Ok(Rec::Addreq { plan, key: NO_KEY })
        }
        RecKind::Addack => {
            let g: Gen = fields.one(alloc)?;
            Ok(Rec::Addack { g })
        }
        RecKind::Addrej => {
            let g: Gen = fields.one(alloc)?;
            Ok(Rec::Addrej { g })
        }
        RecKind::Modreq => {
            let plan = read_plan(alloc, fields)?;
            Ok(Rec::Modreq { plan, key: NO_KEY })
        }
        RecKind::Modack => {
            let g: Gen = fields.one(alloc)?;
            Ok(Rec::Modack { g })
        }
        RecKind::Modrej => {
            let g: Gen = fields.one(alloc)?;
            Ok(Rec::Modrej { g })
        }
        RecKind::Recfg => {
            let g: Gen = fields.one(alloc)?;
            Ok(Rec::Recfg { g })
        }
        RecKind::Relreq => {
            let plan = read_plan(alloc, fields)?;
            Ok(Rec::Relreq { plan })
        }
        RecKind::Relack => {
            let g: Gen = fields.one(alloc)?;
            Ok(Rec::Relack { g })
        }
        RecKind::Relrej => {
            let g: Gen = fields.one(alloc)?;
            Ok(Rec::Relrej { g })
        }
        RecKind::Uecr => {
            let g: Gen = fields.one(alloc)?;
            Ok(Rec::Uecr { g })
        }
        RecKind::Snst => {
            let status = read_status(alloc, fields)?;
            Ok(Rec::Snst { status })
        }
        RecKind::Moved => {
            let (g, id): (Gen, DrbId) = fields.two(alloc)?;
            Ok(Rec::Moved { g, id })
        }
        RecKind::Scgn => {
            let (id, g): (DrbId, Gen) = fields.one(alloc)?;
            Ok(Rec::Scgn { id, g })
        }
        RecKind::Modrqd => {
            fields.end()?;
            Ok(Rec::Modrqd)
        }
        RecKind::Modcnf => {
            let g: Gen = fields.one(alloc)?;
            Ok(Rec::Modcnf { g })
        }
        RecKind::Modref => {
            let word: Word = fields.one(alloc)?;
            Ok(Rec::Modref { word })
        }
        RecKind::Chgrqd => {
            fields.end()?;
            Ok(Rec::Chgrqd)
        }
        RecKind::Chgcnf => {
            let plan = read_plan(alloc, fields)?;
            Ok(Rec::Chgcnf { plan })
        }
        RecKind::Chgref => {
            let word: Word = fields.one(alloc)?;
            Ok(Rec::Chgref { word })
        }
        RecKind::Relrqd => {
            fields.end()?;
            Ok(Rec::Relrqd)
        }
        RecKind::Relcnf => {
            let plan = read_plan(alloc, fields)?;
            Ok(Rec::Relcnf { plan })
        }
    }
}

/// The fields of SN STATUS TRANSFER.
fn read_status(alloc: Global, fields: &mut FieldReader) -> Result<StatusTransfer, LineFault>
    ensures read { IfOk result (λ s. fields.old.fields ≡ status_fields s) }
    ensures range { IfOk result IsStatus }
    ensures fault { IfErr result (λ f. IsFaultAt (record_kinds kind.Snst fields.old.fields) fields.old f) }
{
    let row: (Gen, DrbId, u32, Bits, u32) = fields.five(alloc)?;
    Ok(StatusTransfer {
        g: row.0,
        id: row.1,
        ul: row.2,
        bits: row.3.0,
        dl: row.4,
    })
}
