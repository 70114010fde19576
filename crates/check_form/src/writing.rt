//! The lines of a check.

ghost use Rattle.std.specs.Prelude.{◌≡◌, ◌++◌, codes, IfOk, OnOk};
ghost use Rattle.std.specs.Fmt.{decimal};
ghost use Rattle.check_form.specs.Written.{bad_line_text, claim_name, claim_reason, fails_text, holds_text};

use checker::Claim;
use dc_base::{Memory, Octets};
use dc_text::{write_decimal, write_text};
use std::alloc::Global;

/// The line for a transcript of so many entries of which every claim that is decided holds.
pub fn holds_text(alloc: Global, entries: u32) -> Result<Octets, Memory>
    ensures { IfOk result (λ text. text ≡ holds_text entries) }
{
    let mut text = Octets::new(alloc);
    write_text(&mut text, "ok: ")?;
    write_decimal(&mut text, u64::from(entries))?;
    write_text(
        &mut text,
        " entries; decided: cause, but for full windows and aged flights; consequence; on_link, but for the form of packets; planned\n",
    )?;
    Ok(text)
}

/// The line for a claim that does not hold: the number of the line, the name of the claim, and what is wrong.
pub fn fails_text(alloc: Global, line: u64, claim: Claim) -> Result<Octets, Memory>
    ensures { IfOk result (λ text. text ≡ fails_text line claim) }
{
    let mut text = Octets::new(alloc);
    write_text(&mut text, "line ")?;
    write_decimal(&mut text, line)?;
    write_text(&mut text, ": ")?;
    write_text(&mut text, name_of(claim))?;
    write_text(&mut text, ": ")?;
    write_text(&mut text, reason_of(claim))?;
    write_text(&mut text, "\n")?;
    Ok(text)
}

/// The line for a line outside the grammar.
pub fn bad_line_text(alloc: Global, line: u32, column: usize) -> Result<Octets, Memory>
    ensures { IfOk result (λ text. text ≡ bad_line_text line column) }
{
    let mut text = Octets::new(alloc);
    write_text(&mut text, "dc: line ")?;
    write_decimal(&mut text, u64::from(line))?;
    write_text(&mut text, " column ")?;
    write_decimal(&mut text, column as u64)?;
    write_text(&mut text, ": not in the grammar\n")?;
    Ok(text)
}

/// The plain name of a claim.
fn name_of(claim: Claim) -> &'static str
    ensures { result.now ≡ claim_name claim }
{
    match claim {
        Claim::Consequence => "consequence",
        Claim::OnLink => "on_link",
        Claim::Cause => "cause",
        Claim::Planned => "planned",
    }
}

/// What is wrong where a claim does not hold.
fn reason_of(claim: Claim) -> &'static str
    ensures { result.now ≡ claim_reason claim }
{
    match claim {
        Claim::Consequence => "an event has one answer, and after it stand notes and sends alone",
        Claim::OnLink => "this flight may not stand on this link",
        Claim::Cause => "this answer is not due to the event",
        Claim::Planned => "this plan was not drawn with its generation",
    }
}
