//! Of `dc_outside`.

use dc_outside::{MemSink, MemSource, Sink, Source, StdSink, StdSource, SureSink, SureSource};
use std::alloc::Global;
use std::io::{self, ErrorKind, Read, Write};
use std::test::Fail;

/// One read into a buffer of four octets, through the bound.
fn read_four<S: Source>(source: &mut S, buffer: &mut [u8; 4]) -> Option<usize> {
    source.read(buffer).ok()
}

/// One write, through the bound, and the count of faults after it.
fn write_and_count<K: Sink>(sink: &mut K, bytes: &[u8]) -> (bool, u64) {
    let is_ok = sink.write_all(bytes).is_ok();
    (is_ok, sink.faults())
}

fn ten_octets(alloc: Global) -> Result<Vec<u8>, Fail> {
    Ok(b"0123456789".to_vec(alloc)?)
}

#[test]
fn a_source_in_memory_fails_at_its_numbers(rt: HostRuntime) -> Result<(), Fail> {
    let fail = [2u64, 5].to_vec(rt.alloc())?;
    let mut source = MemSource::new(ten_octets(rt.alloc())?, fail);
    let mut buffer = *b"....";
    let rows: [(Option<usize>, &[u8], &[u8], u64); 6] = [
        (Some(4), b"0123", b"456789", 0),
        (None, b"0123", b"456789", 1),
        (Some(4), b"4567", b"89", 1),
        (Some(2), b"8967", b"", 1),
        (None, b"8967", b"", 2),
        (Some(0), b"8967", b"", 2),
    ];
    for (count, front, left, faults) in rows {
        assert_eq!(rt; read_four(&mut source, &mut buffer), count);
        assert_eq!(rt; buffer.as_slice(), front);
        assert_eq!(rt; source.left(), left);
        assert_eq!(rt; source.faults(), faults);
    }
    Ok(())
}

#[test]
fn a_sink_in_memory_fails_at_its_numbers_and_when_full(rt: HostRuntime) -> Result<(), Fail> {
    let fail = [2u64].to_vec(rt.alloc())?;
    let mut sink = MemSink::new(ten_octets(rt.alloc())?, fail);
    let rows: [(&[u8], bool, &[u8], u64); 5] = [
        (b"abcd", true, b"abcd", 0),
        (b"ef", false, b"abcd", 1),
        (b"ef", true, b"abcdef", 1),
        (b"ghijkl", false, b"abcdefghij", 2),
        (b"", true, b"abcdefghij", 2),
    ];
    for (bytes, is_ok, octets, faults) in rows {
        assert_eq!(rt; write_and_count(&mut sink, bytes), (is_ok, faults));
        assert_eq!(rt; sink.octets(), octets);
    }
    Ok(())
}

#[test]
fn sure_forms_never_fail(rt: HostRuntime) -> Result<(), Fail> {
    let mut source = SureSource::new(ten_octets(rt.alloc())?);
    let mut buffer = *b"....";
    for count in [4, 4, 2, 0] {
        assert_eq!(rt; read_four(&mut source, &mut buffer), Some(count));
    }
    assert_eq!(rt; source.left().len(), 0);
    assert_eq!(rt; source.faults(), 0);
    assert_eq!(rt; write_and_count(&mut SureSink::new(), b"abcd"), (true, 0));
    Ok(())
}

/// A reader and writer whose first call is an error, and which then gives or takes at most three octets.
#[derive(Drop)]
struct Slow {
    calls: u64,
    taken: Vec<u8>,
}

impl Slow {
    fn begin(&mut self) -> io::Result<()> {
        self.calls = self.calls.saturating_add(1);
        if self.calls == 1 {
            return Err(io::Error::from(ErrorKind::Interrupted));
        }
        Ok(())
    }
}

impl Read for Slow {
    fn read(&mut self, buf: &mut [u8]) -> io::Result<usize> {
        self.begin()?;
        let count = buf.len().min(3);
        buf[..count].fill(7);
        Ok(count)
    }
}

impl Write for Slow {
    fn write(&mut self, buf: &[u8]) -> io::Result<usize> {
        self.begin()?;
        let count = buf
            .len()
            .min(3)
            .min(10usize.saturating_sub(self.taken.len()));
        self.taken.extend_from_slice(&buf[..count])?;
        Ok(count)
    }

    fn flush(&mut self) -> io::Result<()> {
        Ok(())
    }
}

#[test]
fn a_reader_of_std_is_a_source(rt: HostRuntime) -> Result<(), Fail> {
    let mut slow = Slow {
        calls: 0,
        taken: Vec::new(rt.alloc()),
    };
    let mut source = StdSource::new(&mut slow);
    let mut buffer = *b"....";
    assert_eq!(rt; read_four(&mut source, &mut buffer), None);
    assert_eq!(rt; source.faults(), 1);
    assert_eq!(rt; read_four(&mut source, &mut buffer), Some(3));
    assert_eq!(rt; source.faults(), 1);
    assert_eq!(rt; buffer.as_slice(), [7, 7, 7, b'.'].as_slice());
    Ok(())
}

#[test]
fn a_writer_of_std_is_a_sink(rt: HostRuntime) -> Result<(), Fail> {
    let mut slow = Slow {
        calls: 0,
        taken: Vec::new(rt.alloc()),
    };
    let mut sink = StdSink::new(&mut slow);
    // An error, then all in three writes, then a write of nothing after three octets.
    assert_eq!(rt; write_and_count(&mut sink, b"abcdefg"), (false, 1));
    assert_eq!(rt; write_and_count(&mut sink, b"abcdefg"), (true, 1));
    assert_eq!(rt; write_and_count(&mut sink, b"hijk"), (false, 2));
    assert_eq!(rt; slow.taken.as_slice(), b"abcdefghij".as_slice());
    Ok(())
}
