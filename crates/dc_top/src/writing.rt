//! The lines of a transcript, written to a sink. Their text is made in one buffer, which is used again for each event.

ghost use Rattle.std.specs.Prelude.{◌≡◌, ◌∷◌, ◌++◌, [], IfErr, IsErrOf, OnOk};
ghost use Rattle.std.specs.Io.KnownBytes.{Appends};
ghost use Rattle.dc_base.specs.declared.answers.Status.{Status};
ghost use Rattle.dc_base.specs.declared.events.Line.TheVariants as line;
ghost use Rattle.dc_outside.specs.Faults.{Rose};
ghost use Rattle.transcript.specs.Text.{ended, header_text, lines_text};
ghost use Rattle.dc_top.specs.Steps.{IsUnwritten};

use dc_base::{Event, Header, Line, Memory, Octets, Status};
use dc_network::Happened;
use dc_outside::Sink;
use script_text::{write_event, write_lines};

/// Writes a text.
pub fn write_text<K: Sink>(text: &[u8], out: &mut K) -> Result<(), Status>
    ensures written { OnOk result (Appends (K.put_out out.old) (K.put_out out.new) text.now) }
    ensures unwritten { IfErr result (λ s. IsUnwritten s text.now (K.put_out out.old) (K.put_out out.new)) }
    ensures kept { OnOk result (K.fault_count out.new ≡ K.fault_count out.old) }
    ensures fault { IsErrOf result Status.WriteFault → Rose (K.fault_count out.old) (K.fault_count out.new) }
{
    match out.write_all(text) {
        Ok(()) => Ok(()),
        Err(_) => Err(Status::WriteFault),
    }
}

/// Writes the first line.
pub fn write_first<K: Sink>(text: &mut Octets, header: &Header, out: &mut K) -> Result<(), Status>
    ensures written { OnOk result (Appends (K.put_out out.old) (K.put_out out.new) (ended (header_text header.now))) }
    ensures unwritten { IfErr result (λ s. IsUnwritten s (ended (header_text header.now)) (K.put_out out.old) (K.put_out out.new)) }
    ensures kept { OnOk result (K.fault_count out.new ≡ K.fault_count out.old) }
    ensures fault { IsErrOf result Status.WriteFault → Rose (K.fault_count out.old) (K.fault_count out.new) }
{
    text.clear();
    match script_text::write_first(text, header) {
        Ok(()) => write_text(text.as_slice(), out),
        Err(_) => Err(Status::Memory),
    }
}

/// Adds the line of an event to a text, with its mark and its end.
pub fn add_event(text: &mut Octets, event: &Event) -> Result<(), Memory>
    ensures { OnOk result (text.new ≡ text.old ++ lines_text (line.Event event.now ∷ [])) }
{
    dc_text::write_text(text, "> ")?;
    write_event(text, event)?;
    text.push(b'\n')
}

/// Adds the lines of an event after its own: its answer, and what came of it.
pub fn add_happened(text: &mut Octets, happened: &Happened) -> Result<(), Memory>
    ensures { OnOk result (text.new ≡ text.old ++ lines_text (line.Answer happened.now.answer ∷ happened.now.lines)) }
{
    write_lines(text, &[Line::Answer(happened.answer)])?;
    write_lines(text, happened.lines.as_slice())
}
