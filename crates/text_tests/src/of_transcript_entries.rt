//! Of `transcript_entries`: transcripts worked by hand.

use dc_base::{Answer, Event, Line, Note, Refusal};
use dc_outside::MemSource;
use std::alloc::Global;
use std::process::Abort;
use std::test::Fail;
use transcript_entries::{EntryFault, EntryReader, ReadEntry};

/// A header, under which nothing is ciphered.
const HEADER: &[u8] =
    b"dcs1 nea0 0 0000000000000000000000000000000000000000000000000000000000000000\n";

/// A source of the header and these lines.
fn source(alloc: Global, lines: &str) -> Result<MemSource, Fail> {
    let mut octets = HEADER.to_vec(alloc)?;
    octets.extend_from_slice(lines.as_bytes())?;
    Ok(MemSource::new(octets, Vec::new(alloc)))
}

/// Whether the next entry is this event with this answer and so many lines, and its event stands in this line.
fn is_next(
    rt: &impl Abort,
    next: Result<Option<ReadEntry>, EntryFault>,
    row: &(Event, Answer, usize, u32),
) -> Result<(), Fail> {
    let entry = next?.ok_or("an entry")?;
    let (event, answer, lines, number) = row;
    assert_eq!(rt; &entry.event, event);
    assert_eq!(rt; entry.answer, *answer);
    assert_eq!(rt; entry.lines.len(), *lines);
    assert_eq!(rt; entry.number, *number);
    Ok(())
}

#[test]
fn an_entry_goes_up_to_the_next_event(rt: HostRuntime) -> Result<(), Fail> {
    let alloc = rt.alloc();
    let lines = "> change\n= ok\n- done\n- rejected\n> release\n= no busy\n> scgfail\n= ok\n= ok";
    let rows = [
        (Event::Change, Answer::Ok, 2, 2),
        (Event::Release, Answer::No(Refusal::Busy), 0, 6),
        (Event::ScgFail, Answer::Ok, 1, 8),
    ];
    let mut source = source(alloc, lines)?;
    let (header, mut reader) = EntryReader::open(alloc, &mut source)?;
    assert_eq!(rt; header.root, [0; 32]);
    for row in &rows {
        is_next(&rt, reader.next(&mut source), row)?;
    }
    assert!(rt; reader.next(&mut source)?.is_none());
    Ok(())
}

/// How a transcript of the header and these lines ends: how many entries come first, and the fault, if there is one.
fn ends(alloc: Global, lines: &str) -> Result<(usize, Option<EntryFault>), Fail> {
    let mut source = source(alloc, lines)?;
    let mut reader = match EntryReader::open(alloc, &mut source) {
        Ok(opened) => opened.1,
        Err(fault) => return Ok((0, Some(fault))),
    };
    for entries in 0..10usize {
        match reader.next(&mut source) {
            Ok(Some(_)) => {}
            Ok(None) => return Ok((entries, None)),
            Err(fault) => return Ok((entries, Some(fault))),
        }
    }
    Ok((10, None))
}

#[test]
fn where_a_transcript_ends(rt: HostRuntime) -> Result<(), Fail> {
    let rows = [
        ("", 0, None),
        ("> change\n= ok\n> change\n= ok\n- done\n", 2, None),
        ("= ok\n", 0, Some((2, 1))),
        ("> drain\n", 0, Some((2, 3))),
        ("> change\n", 0, Some((3, 1))),
        ("> change\n> change\n", 0, Some((3, 1))),
        ("> change\n- done\n", 0, Some((3, 1))),
        ("> change\n= ok\n> change\n= maybe\n", 1, Some((5, 3))),
        ("> change\n= ok\n- done\n- done x\n", 0, Some((5, 8))),
        (
            "> change\n= ok\n> change\n= ok\n\n> change\n",
            1,
            Some((6, 1)),
        ),
    ];
    for (lines, entries, bad) in rows {
        let fault = bad.map(|(line, column)| EntryFault::BadLine { line, column });
        assert_eq!(rt; ends(rt.alloc(), lines)?, (entries, fault), "{lines}");
    }
    Ok(())
}
