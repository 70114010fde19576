//! The lines of a summary.

ghost use Rattle.std.specs.Prelude.{◌≡◌, ◌++◌, IfOk, OnOk};
ghost use Rattle.std.specs.Fmt.{decimal};
ghost use Rattle.summary.specs.Summed.{totals};
ghost use Rattle.summary.specs.Texts.{bearers_text, passed_text, tally_text};

use crate::summing::Summary;
use crate::tallies::{Passed, Tally};
use dc_base::{Dir, DrbId, Line, Memory, Octets};
use dc_text::{write_decimal, write_text};
use std::alloc::Global;

/// Writes the payloads of a bearer in one direction.
fn write_passed(out: &mut Octets, id: DrbId, dir: Dir, passed: Passed) -> Result<(), Memory>
    ensures { OnOk result (out.new ≡ out.old ++ passed_text id dir passed) }
{
    write_decimal(out, u64::from(id.get()))?;
    match dir {
        Dir::Dl => write_text(out, " dl ")?,
        Dir::Ul => write_text(out, " ul ")?,
    }
    write_decimal(out, passed.handed)?;
    out.push(b'/')?;
    write_decimal(out, passed.submitted)?;
    out.push(b'\n')
}

/// Writes those of both directions.
pub(crate) fn write_tally(out: &mut Octets, tally: &Tally) -> Result<(), Memory>
    ensures { OnOk result (out.new ≡ out.old ++ tally_text tally.now) }
{
    write_passed(out, tally.id, Dir::Dl, tally.dl)?;
    write_passed(out, tally.id, Dir::Ul, tally.ul)
}

/// Writes a word and a number.
pub(crate) fn write_count(out: &mut Octets, word: &str, count: u64) -> Result<(), Memory>
    ensures { OnOk result (out.new ≡ out.old ++ (word.now ++ decimal count)) }
{
    write_text(out, word)?;
    write_decimal(out, count)
}

/// The bearer lines of a transcript that has these lines.
pub fn bearer_lines(alloc: Global, lines: &[Line]) -> Result<Octets, Memory>
    ensures { IfOk result (λ text. text ≡ bearers_text (totals lines.now).bearers) }
{
    let mut summary = Summary::new(alloc);
    summary.add_all(lines)?;
    let mut out = Octets::new(alloc);
    summary.write_bearers(&mut out)?;
    Ok(out)
}
