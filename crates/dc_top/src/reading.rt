//! The lines of a script, read one by one.

ghost use Rattle.std.specs.Prelude.{◌≡◌, ◌+◌, ◌≤◌, false, length, true, IfErr, IfNone, IfOk, IfSome, IsErrOf, None, Ok, OnOk};
ghost use Rattle.std.specs.Io.KnownBytes.{IsAtEnd};
ghost use Rattle.dc_base.specs.declared.answers.Status.{Status};
ghost use Rattle.dc_outside.specs.Faults.{Rose};
ghost use Rattle.dc_text.specs.Lines.{GivesLine, input, span, taken_by};
ghost use Rattle.transcript.specs.Text.{header_text};
ghost use Rattle.script_text.specs.Scripts.{IsScriptHeader};
ghost use Rattle.dc_top.specs.Script.{IsInRange, IsUnread, IsUnreadHeader, IsUnreadLine, script_line, most_line, most_octets};
ghost use Rattle.dc_top.specs.Ended.{most_read};

use dc_base::{Header, Octets, Status};
use dc_outside::Source;
use dc_text::{LineErr, LineReader};
use script_text::{LineFault, Scripted, read_header, read_line};
use std::alloc::Global;

/// The next line, or the status that a run ends with where none comes.
fn next_line<S: Source>(reader: &mut LineReader, src: &mut S) -> Result<Option<Octets>, Status>
    ensures line { IfOk result (λ found. IfSome found (λ line.
        GivesLine (input reader.old (S.left src.old)) (input reader.new (S.left src.new)) line)) }
    ensures end { reader.old.ended ≡ false → IfOk result (λ found. IfNone found
        (IsAtEnd (input reader.old (S.left src.old)) × IsAtEnd (input reader.new (S.left src.new)))) }
    ensures last { IfOk result (λ found. IfSome found (λ line. IfSome (input reader.old (S.left src.old))
        (λ octets. span octets ≡ taken_by line reader.new.ended))) }
    ensures after_end { reader.old.ended ≡ true → (result ≡ Ok None) × (reader.new ≡ reader.old) × (src.new ≡ src.old) }
    ensures short { IfOk result (λ found. IfSome found (λ line. length line ≤ most_line)) }
    ensures total { reader.new.passed ≤ most_octets }
    ensures passed { IfOk result (λ found. IfSome found (λ _. IfSome (input reader.old (S.left src.old))
        (λ octets. reader.new.passed ≡ reader.old.passed + span octets))) }
    ensures ahead { length reader.new.held ≤ most_read }
    ensures unread { IfErr result (λ s. IsUnread s (input reader.old (S.left src.old)) reader.old.passed (S.left src.new)) }
    ensures kept { OnOk result (S.fault_count src.new ≡ S.fault_count src.old) }
    ensures fault { IsErrOf result Status.ReadFault → Rose (S.fault_count src.old) (S.fault_count src.new) }
{
    match reader.next(src) {
        Ok(found) => Ok(found),
        Err(LineErr::ReadFault) => Err(Status::ReadFault),
        Err(LineErr::LineTooLong) => Err(Status::TooLong),
        Err(LineErr::TotalTooLong) => Err(Status::TooLong),
        Err(LineErr::Memory) => Err(Status::Memory),
    }
}

/// Reads the first line, which is to be a header. An input without a line is bad at line 1, column 1.
pub fn take_header<S: Source>(reader: &mut LineReader, src: &mut S) -> Result<Header, Status>
    requires { reader.old.ended ≡ false }
    ensures header { IfOk result (λ h. IsScriptHeader h) }
    ensures line { IfOk result (λ h.
        GivesLine (input reader.old (S.left src.old)) (input reader.new (S.left src.new)) (header_text h)) }
    ensures last { IfOk result (λ h. IfSome (input reader.old (S.left src.old))
        (λ octets. span octets ≡ taken_by (header_text h) reader.new.ended)) }
    ensures total { reader.new.passed ≤ most_octets }
    ensures passed { OnOk result (IfSome (input reader.old (S.left src.old))
        (λ octets. reader.new.passed ≡ reader.old.passed + span octets)) }
    ensures ahead { length reader.new.held ≤ most_read }
    ensures unread { IfErr result (λ s. IsUnreadHeader s (input reader.old (S.left src.old)) reader.old.passed (S.left src.new)) }
    ensures kept { OnOk result (S.fault_count src.new ≡ S.fault_count src.old) }
    ensures fault { IsErrOf result Status.ReadFault → Rose (S.fault_count src.old) (S.fault_count src.new) }
{
    let Some(line) = next_line(reader, src)? else {
        return Err(Status::BadLine { line: 1, column: 1 });
    };
    match read_header(line.as_slice()) {
        Ok(header) => Ok(header),
        Err(LineFault::Column(column)) => Err(Status::BadLine { line: 1, column }),
        Err(LineFault::Memory) => Err(Status::Memory),
    }
}

/// Reads a further line, which has this number: `None` at the end of the input.
pub fn take_line<S: Source>(
    alloc: Global,
    reader: &mut LineReader,
    src: &mut S,
    number: u32,
) -> Result<Option<Scripted>, Status>
    ensures in_range { IfOk result (λ found. IfSome found (λ line. IsInRange line)) }
    ensures short { IfOk result (λ found. IfSome found (λ line. length (script_line line) ≤ most_line)) }
    ensures line { IfOk result (λ found. IfSome found (λ line.
        GivesLine (input reader.old (S.left src.old)) (input reader.new (S.left src.new)) (script_line line))) }
    ensures end { reader.old.ended ≡ false → IfOk result (λ found. IfNone found
        (IsAtEnd (input reader.old (S.left src.old)) × IsAtEnd (input reader.new (S.left src.new)))) }
    ensures last { IfOk result (λ found. IfSome found (λ line. IfSome (input reader.old (S.left src.old))
        (λ octets. span octets ≡ taken_by (script_line line) reader.new.ended))) }
    ensures after_end { reader.old.ended ≡ true → (result ≡ Ok None) × (reader.new ≡ reader.old) × (src.new ≡ src.old) }
    ensures total { reader.new.passed ≤ most_octets }
    ensures passed { IfOk result (λ found. IfSome found (λ _. IfSome (input reader.old (S.left src.old))
        (λ octets. reader.new.passed ≡ reader.old.passed + span octets))) }
    ensures ahead { length reader.new.held ≤ most_read }
    ensures unread { IfErr result (λ s. IsUnreadLine s number (input reader.old (S.left src.old)) reader.old.passed (S.left src.new)) }
    ensures kept { OnOk result (S.fault_count src.new ≡ S.fault_count src.old) }
    ensures fault { IsErrOf result Status.ReadFault → Rose (S.fault_count src.old) (S.fault_count src.new) }
{
    let Some(line) = next_line(reader, src)? else {
        return Ok(None);
    };
    match read_line(alloc, line.as_slice()) {
        Ok(scripted) => Ok(Some(scripted)),
        Err(LineFault::Column(column)) => Err(Status::BadLine {
            line: number,
            column,
        }),
        Err(LineFault::Memory) => Err(Status::Memory),
    }
}
