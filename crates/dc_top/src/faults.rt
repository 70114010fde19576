//! The texts of faults.

ghost use Rattle.std.specs.Prelude.{◌≡◌};
ghost use Rattle.dc_base.specs.declared.answers.Status.{Status};

use dc_base::{Memory, Octets, Status};
use dc_outside::{Failed, Sink};
use dc_text::{write_decimal, write_text};
use std::alloc::Global;

/// The usage text.
const USAGE: &[u8] =
    b"dc: usage: dc run / keys ROOT COUNTER / nea2 KEY COUNT DRB DIR HEX / show KIND HEX / make SEED TURNS / soak SEED TURNS / live TURNS\n";

/// The text for a bad line: its place.
fn bad_line(alloc: Global, line: u32, column: u32) -> Result<Octets, Memory> {
    let mut text = Octets::new(alloc);
    write_text(&mut text, "dc: line ")?;
    write_decimal(&mut text, u64::from(line))?;
    write_text(&mut text, " column ")?;
    write_decimal(&mut text, u64::from(column))?;
    write_text(&mut text, ": not in the grammar\n")?;
    Ok(text)
}

/// Writes the text for a bad line, if there is memory for it.
fn write_bad_line<E: Sink>(
    alloc: Global,
    line: u32,
    column: u32,
    err: &mut E,
) -> Result<(), Failed> {
    match bad_line(alloc, line, column) {
        Ok(text) => err.write_all(text.as_slice()),
        Err(Memory) => Ok(()),
    }
}

/// Writes the fault text of a status, and nothing for Ok. A fault of `err` changes nothing.
pub fn write_fault<E: Sink>(alloc: Global, status: Status, err: &mut E)
    ensures { status ≡ Status.Ok → err.new ≡ err.old }
{
    let _written = match status {
        Status::Ok => Ok(()),
        Status::Usage => err.write_all(USAGE),
        Status::BadLine { line, column } => write_bad_line(alloc, line, column, err),
        Status::ReadFault => err.write_all(b"dc: read fault\n"),
        Status::WriteFault => err.write_all(b"dc: write fault\n"),
        Status::Memory => err.write_all(b"dc: out of memory\n"),
        Status::TooLong => err.write_all(b"dc: too long\n"),
    };
}
