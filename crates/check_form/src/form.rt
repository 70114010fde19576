//! The form `check`.

ghost use Rattle.std.specs.Prelude.{◌≡◌, List, Some, ℕ, IfErr, IfOk, IsErrAnd, IsErrOf, OnErr, OnOk};
ghost use Rattle.std.specs.Io.KnownBytes.{Appends};
ghost use Rattle.dc_outside.specs.Octets.{AppendsFront};
ghost use Rattle.dc_outside.specs.Faults.{Rose};
ghost use Rattle.transcript_entries.specs.declared.fault.EntryFault.TheVariants as faults;
ghost use Rattle.check_form.specs.Written.{HasChecked};
ghost use Rattle.check_form.specs.declared.outcome.Outcome.{Outcome};

use crate::checking::check;
use crate::outcome::Outcome;
use crate::verdict::Verdict;
use crate::writing::{bad_line_text, fails_text, holds_text};
use dc_base::{Memory, Octets};
use dc_outside::{Failed, Sink, Source};
use std::alloc::Global;
use transcript_entries::EntryFault;

/// Reads a transcript from `src`, and writes one line to `out`: how many entries it has and what was decided, or the line and
/// the claim that does not hold. A fault text goes to `err`, whose faults change nothing.
pub fn check_command<S: Source, K: Sink, E: Sink>(
    alloc: Global,
    src: &mut S,
    out: &mut K,
    err: &mut E,
) -> Outcome
    ensures checked { (octets : List ℕ) → S.left src.old ≡ Some octets → HasChecked octets result (K.put_out out.old) (K.put_out out.new) }
    ensures read_fault { result ≡ Outcome.Unread faults.ReadFault → Rose (S.fault_count src.old) (S.fault_count src.new) }
    ensures write_fault { result ≡ Outcome.WriteFault → Rose (K.fault_count out.old) (K.fault_count out.new) }
    ensures quiet { result ≡ Outcome.Holds → err.new ≡ err.old }
{
    match check(alloc, src) {
        Verdict::Holds { entries } => match write_line(holds_text(alloc, entries), out) {
            Ok(()) => Outcome::Holds,
            Err(outcome) => outcome,
        },
        Verdict::Fails { line, claim } => match write_line(fails_text(alloc, line, claim), out) {
            Ok(()) => Outcome::Fails,
            Err(outcome) => outcome,
        },
        Verdict::Unread(fault) => {
            write_fault(alloc, fault, err);
            Outcome::Unread(fault)
        }
    }
}

/// Writes a line, if there was memory for it; else how the form ends.
fn write_line<K: Sink>(text: Result<Octets, Memory>, out: &mut K) -> Result<(), Outcome>
    ensures written { IfOk text (λ t. OnOk result (Appends (K.put_out out.old) (K.put_out out.new) t)) }
    ensures front { IfOk text (λ t. IfErr result (λ o. (o ≡ Outcome.WriteFault) × AppendsFront (K.put_out out.old) (K.put_out out.new) t)) }
    ensures none { OnErr text (IsErrAnd result (λ o. (o ≡ Outcome.Unread faults.Memory) × (out.new ≡ out.old))) }
    ensures fault { IsErrOf result Outcome.WriteFault → Rose (K.fault_count out.old) (K.fault_count out.new) }
{
    match text {
        Ok(text) => match out.write_all(text.as_slice()) {
            Ok(()) => Ok(()),
            Err(_) => Err(Outcome::WriteFault),
        },
        Err(Memory) => Err(Outcome::Unread(EntryFault::Memory)),
    }
}

/// Writes the text of a fault, if there is memory for it. A fault of `err` changes nothing.
fn write_fault<E: Sink>(alloc: Global, fault: EntryFault, err: &mut E) {
    let _written = match fault {
        EntryFault::BadLine { line, column } => write_bad_line(alloc, line, column, err),
        EntryFault::ReadFault => err.write_all(b"dc: read fault\n"),
        EntryFault::TooLong => err.write_all(b"dc: too long\n"),
        EntryFault::Memory => err.write_all(b"dc: out of memory\n"),
    };
}

/// Writes the text for a line outside the grammar.
fn write_bad_line<E: Sink>(
    alloc: Global,
    line: u32,
    column: usize,
    err: &mut E,
) -> Result<(), Failed> {
    match bad_line_text(alloc, line, column) {
        Ok(text) => err.write_all(text.as_slice()),
        Err(Memory) => Ok(()),
    }
}
