//! The lines of a script, written.

ghost use Rattle.std.specs.Prelude.{◌≡◌, ◌++◌, OnOk};
ghost use Rattle.transcript.specs.Text.{ended};
ghost use Rattle.made_runs.specs.Made.{line_words, lines_words};

use dc_base::{Memory, Octets};
use dc_text::write_text;
use script_text::{Scripted, write_event};

/// Writes a line, with its end.
fn write_line(out: &mut Octets, line: &Scripted) -> Result<(), Memory>
    ensures { OnOk result (out.new ≡ out.old ++ ended (line_words line.now)) }
{
    match line {
        Scripted::One(event) => write_event(out, event)?,
        Scripted::Drain => write_text(out, "drain")?,
    }
    out.push(b'\n')
}

/// Writes lines, each with its end.
pub(crate) fn write_lines(out: &mut Octets, lines: &[Scripted]) -> Result<(), Memory>
    ensures { OnOk result (out.new ≡ out.old ++ lines_words lines.now) }
{
    for line in lines {
        write_line(out, line)?;
    }
    Ok(())
}
