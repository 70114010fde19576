//! Of `dc_text`.

use dc_base::Octets;
use dc_outside::{MemSource, Source, StdSource};
use dc_text::{LineErr, LineReader, decimal, hex_octets, write_decimal, write_hex, write_text};
use std::alloc::Global;
use std::io::{self, Read};
use std::test::Fail;

/// A reader that gives at most so many octets at a time.
#[derive(Drop)]
struct Pieces<'a> {
    rest: &'a [u8],
    most: usize,
}

impl Read for Pieces<'_> {
    fn read(&mut self, buf: &mut [u8]) -> io::Result<usize> {
        let rest = self.rest;
        let count = buf.len().min(self.most).min(rest.len());
        buf[..count].copy_from_slice(&rest[..count]);
        self.rest = &rest[count..];
        Ok(count)
    }
}

/// The next line, through the bound.
fn next_line<S: Source>(
    reader: &mut LineReader,
    source: &mut S,
) -> Result<Option<Octets>, LineErr> {
    reader.next(source)
}

/// How the next line ends: its length, nothing at the end, or an error.
fn next_length<S: Source>(
    reader: &mut LineReader,
    source: &mut S,
) -> Result<Option<usize>, LineErr> {
    match reader.next(source) {
        Ok(Some(line)) => Ok(Some(line.len())),
        Ok(None) => Ok(None),
        Err(error) => Err(error),
    }
}

/// A source of so many octets `a` and then this end.
fn source_of(alloc: Global, length: usize, end: &[u8], fail: u64) -> Result<MemSource, Fail> {
    let mut octets = vec![in alloc; b'a'; length]?;
    octets.extend_from_slice(end)?;
    let mut numbers = Vec::new(alloc);
    numbers.push(fail)?;
    Ok(MemSource::new(octets, numbers))
}

#[test]
fn lines_however_they_are_cut(rt: HostRuntime) -> Result<(), Fail> {
    let script = b"dl 1 00\n\nstep mt.air 0\nend";
    let lines: [&[u8]; 4] = [b"dl 1 00", b"", b"step mt.air 0", b"end"];
    for most in [1, 2, 3, 5, 8, 100] {
        let mut source = StdSource::new(Pieces { rest: script, most });
        let mut reader = LineReader::new(rt.alloc());
        for line in lines {
            let read = next_line(&mut reader, &mut source)
                .ok()
                .flatten()
                .ok_or("no line")?;
            assert_eq!(rt; read.as_slice(), line, "by {most}");
        }
        assert!(rt; matches!(next_line(&mut reader, &mut source), Ok(None)));
    }
    Ok(())
}

#[test]
fn limits_and_faults(rt: HostRuntime) -> Result<(), Fail> {
    let rows: [(usize, &[u8], u64, Result<Option<usize>, LineErr>); 9] = [
        (0, b"", 0, Ok(None)),
        (0, b"\n", 0, Ok(Some(0))),
        (20_000, b"\n", 0, Ok(Some(20_000))),
        (20_000, b"", 0, Ok(Some(20_000))),
        (20_001, b"\n", 0, Err(LineErr::LineTooLong)),
        (20_001, b"", 0, Err(LineErr::LineTooLong)),
        (100_000, b"", 0, Err(LineErr::LineTooLong)),
        (5, b"\n", 1, Err(LineErr::ReadFault)),
        (5, b"", 2, Err(LineErr::ReadFault)),
    ];
    for (length, end, fail, answer) in rows {
        let mut source = source_of(rt.alloc(), length, end, fail)?;
        let mut reader = LineReader::new(rt.alloc());
        assert_eq!(rt;
            next_length(&mut reader, &mut source),
            answer,
            "{length} octets"
        );
    }
    Ok(())
}

#[test]
fn after_the_end_nothing_is_read(rt: HostRuntime) -> Result<(), Fail> {
    let mut source = source_of(rt.alloc(), 5, b"", 3)?;
    let mut reader = LineReader::new(rt.alloc());
    assert_eq!(rt; next_length(&mut reader, &mut source), Ok(Some(5)));
    assert_eq!(rt; next_length(&mut reader, &mut source), Ok(None));
    assert_eq!(rt; next_length(&mut reader, &mut source), Ok(None));
    Ok(())
}

#[test]
fn an_input_has_16_mib_at_most(rt: HostRuntime) -> Result<(), Fail> {
    let mut octets = Vec::new(rt.alloc());
    for _ in 0..1024 {
        octets.extend_from_slice(&[b'a'; 16_383])?;
        octets.push(b'\n')?;
    }
    octets.push(b'a')?;
    let mut source = MemSource::new(octets, Vec::new(rt.alloc()));
    let mut reader = LineReader::new(rt.alloc());
    for _ in 0..1024 {
        assert_eq!(rt; next_length(&mut reader, &mut source), Ok(Some(16_383)));
    }
    assert_eq!(rt;
        next_length(&mut reader, &mut source),
        Err(LineErr::TotalTooLong)
    );
    Ok(())
}

#[test]
fn decimal_numbers(rt: HostRuntime) {
    let rows: [(&[u8], u64, Option<u64>); 15] = [
        (b"0", 0, Some(0)),
        (b"7", 7, Some(7)),
        (b"8", 7, None),
        (b"4294967294", 4_294_967_294, Some(4_294_967_294)),
        (b"4294967295", 4_294_967_294, None),
        (b"18446744073709551615", u64::MAX, Some(u64::MAX)),
        (b"18446744073709551616", u64::MAX, None),
        (b"", u64::MAX, None),
        (b"00", u64::MAX, None),
        (b"012", u64::MAX, None),
        (b"+1", u64::MAX, None),
        (b"-1", u64::MAX, None),
        (b"1 ", u64::MAX, None),
        (b"1a", u64::MAX, None),
        (b"1\xff", u64::MAX, None),
    ];
    for (field, max, number) in rows {
        assert_eq!(rt; decimal(field, max), number, "at {field:?}");
    }
}

#[test]
fn texts_are_written(rt: HostRuntime) -> Result<(), Fail> {
    let mut text = Octets::new(rt.alloc());
    write_text(&mut text, "at ")?;
    write_decimal(&mut text, 0)?;
    write_decimal(&mut text, u64::MAX)?;
    write_hex(&mut text, &[0xa0; 65])?;
    let written = text.as_slice();
    assert_eq!(rt; written.len(), 154);
    assert!(rt; written.starts_with(b"at 018446744073709551615a0a0"));
    assert!(rt; written.ends_with(b"a0a0"));
    Ok(())
}

#[test]
fn octets_in_hex(rt: HostRuntime) -> Result<(), Fail> {
    let rows: [(&[u8], Option<&[u8]>); 8] = [
        (b"00", Some(b"\x00")),
        (b"09afbe", Some(b"\x09\xaf\xbe")),
        (b"ff00", Some(b"\xff\x00")),
        (b"", None),
        (b"0", None),
        (b"0AFF", None),
        (b"0g", None),
        (b"012", None),
    ];
    for (field, octets) in rows {
        let read = hex_octets(rt.alloc(), field).ok().ok_or("memory")?;
        assert_eq!(rt;
            read.as_ref().map(|octets| octets.as_slice()),
            octets,
            "at {field:?}"
        );
    }
    Ok(())
}
