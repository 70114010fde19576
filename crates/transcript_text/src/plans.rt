//! Plans, read.

ghost use Rattle.std.specs.Prelude.{◌≡◌, IfOk, IfErr};
ghost use Rattle.transcript_text.specs.Fields.{plan_fields};
ghost use Rattle.transcript_text.specs.Grammar.{plan_kinds};
ghost use Rattle.transcript_text.specs.Places.{IsFaultAt};
ghost use Rattle.transcript_text.specs.Ranges.{IsPlan};

use crate::fault::LineFault;
use crate::field_reader::FieldReader;
use dc_base::{Item, Node, Plan, Seq};
use std::alloc::Global;

/// The fields of a plan: its generation, the secondary node after it, its items.
pub fn read_plan(alloc: Global, fields: &mut FieldReader) -> Result<Plan, LineFault>
    ensures read { IfOk result (λ p. fields.old.fields ≡ plan_fields p) }
    ensures range { IfOk result IsPlan }
    ensures fault { IfErr result (λ f. IsFaultAt (plan_kinds fields.old.fields) fields.old f) }
{
    let g: u32 = fields.take(alloc)?;
    let sec: Option<Node> = fields.take(alloc)?;
    let items: Seq<Item> = fields.all(alloc)?;
    Ok(Plan { g, sec, items })
}
