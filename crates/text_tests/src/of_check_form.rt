//! Of `check_form`: transcripts worked by hand.

use check_form::{Outcome, check_command};
use dc_outside::{MemSink, MemSource};
use std::alloc::Global;
use std::process::Abort;
use std::test::Fail;
use transcript_entries::EntryFault;

/// A header, under which nothing is ciphered.
const HEADER: &[u8] =
    b"dcs1 nea0 0 0000000000000000000000000000000000000000000000000000000000000000\n";

/// Whether a check of the header and these lines ends so, and writes this.
fn is_told(
    rt: &impl Abort,
    alloc: Global,
    lines: &str,
    outcome: Outcome,
    told: &str,
) -> Result<(), Fail> {
    let mut octets = HEADER.to_vec(alloc)?;
    octets.extend_from_slice(lines.as_bytes())?;
    let mut source = MemSource::new(octets, Vec::new(alloc));
    let mut out = MemSink::new(vec![in alloc; 0; 1000]?, Vec::new(alloc));
    let mut err = MemSink::new(vec![in alloc; 0; 1000]?, Vec::new(alloc));
    let ended = check_command(alloc, &mut source, &mut out, &mut err);
    assert_eq!(rt; ended, outcome, "{lines}");
    assert_eq!(rt; out.octets(), told.as_bytes(), "{lines}");
    Ok(())
}

#[test]
fn a_transcript_that_holds(rt: HostRuntime) -> Result<(), Fail> {
    let lines =
        "> bearer 1 12 0 mm 0 0\n= ok\n- send mt.ctl reconf 1 - 1/12/0/mm/0/0/m0/-\n> lose mt.ctl 0\n= no nottunnel\n> lose ma.tun 0\n= no noflight\n";
    let told =
        "ok: 3 entries; decided: cause, but for full windows and aged flights; consequence; on_link, but for the form of packets; planned\n";
    is_told(&rt, rt.alloc(), lines, Outcome::Holds, told)
}

#[test]
fn claims_that_do_not_hold(rt: HostRuntime) -> Result<(), Fail> {
    let rows = [
        (
            "> release\n= no nosecondary\n= no busy\n",
            "line 4: consequence: an event has one answer, and after it stand notes and sends alone\n",
        ),
        (
            "> deny a on\n= ok\n- send mt.ctl ack 1 1 0\n",
            "line 4: on_link: this flight may not stand on this link\n",
        ),
        (
            "> release\n= no nosecondary\n> lose ma.tun 0\n= ok\n",
            "line 4: cause: this answer is not due to the event\n",
        ),
        (
            "> change\n= ok\n",
            "line 2: cause: this answer is not due to the event\n",
        ),
        (
            "> bearer 1 12 0 mm 0 0\n= ok\n- send mt.ctl reconf 1 - 1/12/0/mm/0/0/m1/-\n",
            "line 4: planned: this plan was not drawn with its generation\n",
        ),
    ];
    for (lines, told) in rows {
        is_told(&rt, rt.alloc(), lines, Outcome::Fails, told)?;
    }
    Ok(())
}

#[test]
fn lines_outside_the_grammar(rt: HostRuntime) -> Result<(), Fail> {
    let rows = [
        ("= ok\n", 2, 1),
        ("> release\n", 3, 1),
        ("> release\n- done\n", 3, 1),
        ("> release\n= ok\n- done x\n", 4, 8),
        ("> release\n= ok\n\n", 4, 1),
    ];
    for (lines, line, column) in rows {
        let fault = EntryFault::BadLine { line, column };
        is_told(&rt, rt.alloc(), lines, Outcome::Unread(fault), "")?;
    }
    Ok(())
}
