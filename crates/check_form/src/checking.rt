//! A transcript, held against the claims entry by entry.

ghost use Rattle.std.specs.Prelude.{◌≡◌, ℕ, ◌<◌, ◌≤◌, ◌^◌, List, Some, IfErr, IfOk, IsErrOf};
ghost use Rattle.std.specs.Option.{ForSome};
ghost use Rattle.dc_outside.specs.Faults.{Rose};
ghost use Rattle.transcript_entries.specs.Read.{ahead};
ghost use Rattle.transcript_entries.specs.declared.fault.EntryFault.TheVariants.{ReadFault};
ghost use Rattle.check_form.specs.Verdicts.{IsAfter, IsVerdict, broken_line};
ghost use Rattle.check_form.specs.declared.verdict.Verdict.{Verdict};

use crate::verdict::Verdict;
use checker::Checker;
use dc_outside::Source;
use std::alloc::Global;
use transcript_entries::{EntryFault, EntryReader};

/// Reads a transcript from a source, and holds each entry against the claims that are decided. It reads no further than the
/// first entry that breaks one.
pub fn check<S: Source>(alloc: Global, source: &mut S) -> Verdict
    ensures verdict { (octets : List ℕ) → S.left source.old ≡ Some octets → IsVerdict result octets }
    ensures read_fault { result ≡ Verdict.Unread ReadFault → Rose (S.fault_count source.old) (S.fault_count source.new) }
{
    match check_all(alloc, source) {
        Ok(verdict) => verdict,
        Err(fault) => Verdict::Unread(fault),
    }
}

/// The same, with a fault apart.
fn check_all<S: Source>(alloc: Global, source: &mut S) -> Result<Verdict, EntryFault>
    ensures verdict { (octets : List ℕ) → S.left source.old ≡ Some octets → IfOk result (λ v. IsVerdict v octets) }
    ensures unread { (octets : List ℕ) → S.left source.old ≡ Some octets → IfErr result (λ f. IsVerdict (Verdict.Unread f) octets) }
    ensures told { IfOk result (λ v. v ≡ Verdict.Unread ReadFault → ⊥) }
    ensures fault { IsErrOf result ReadFault → Rose (S.fault_count source.old) (S.fault_count source.new) }
{
    let opened = EntryReader::open(alloc, source)?;
    let header = opened.0;
    let mut reader = opened.1;
    let mut checker = Checker::new(alloc, &header)?;
    check_entries(&mut reader, &mut checker, source)
}

/// The entries, up to the end or the first that breaks a claim.
fn check_entries<S: Source>(
    reader: &mut EntryReader,
    checker: &mut Checker,
    source: &mut S,
) -> Result<Verdict, EntryFault>
    requires { reader.old.taken ≤ 4294967295 }
    ensures verdict { (octets : List ℕ) → IsAfter octets 0 reader.old (ahead reader.old.reader (S.left source.old)) checker.old
        → IfOk result (λ v. IsVerdict v octets) }
    ensures unread { (octets : List ℕ) → IsAfter octets 0 reader.old (ahead reader.old.reader (S.left source.old)) checker.old
        → IfErr result (λ f. IsVerdict (Verdict.Unread f) octets) }
    ensures told { IfOk result (λ v. v ≡ Verdict.Unread ReadFault → ⊥) }
    ensures fault { IsErrOf result ReadFault → Rose (S.fault_count source.old) (S.fault_count source.new) }
{
    for entries in 0..u32::MAX {
        let Some(entry) = reader.next(source)? else {
            return Ok(Verdict::Holds { entries });
        };
        let tried = checker.entry(&entry.event, entry.answer, entry.lines.as_slice())?;
        match tried {
            None => {}
            Some(broken) => {
                return Ok(Verdict::Fails {
                    line: line_of(entry.number, broken.line),
                    claim: broken.claim,
                });
            }
        }
    }
    Err(EntryFault::TooLong)
}

/// The number of the line that breaks a claim, in the entry whose event has this number.
fn line_of(number: u32, place: Option<usize>) -> u64
    requires { ForSome place (λ k. k < 2 ^ 63) }
    ensures { result ≡ broken_line number place }
{
    match place {
        None => u64::from(number),
        Some(k) => u64::from(number) + 2 + k as u64,
    }
}
