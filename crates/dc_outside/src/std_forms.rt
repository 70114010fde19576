//! A reader of std as a source, and a writer of std as a sink.
ghost use Rattle.std.specs.Prelude.{◌≡◌, ℕ, OnOk};
ghost use Rattle.std.specs.Io.KnownBytes.{Appends};
ghost use Rattle.dc_outside.specs.Octets.{AppendsFront, Puts};
ghost use Rattle.dc_outside.specs.StdForms.{failed_reads, failed_writes};

use crate::{Failed, Sink, Source};
use std::io::{Read, Write};

/// A reader of std as a source. Each error of the reader is a fault. It tells the octets left where std tells them of
/// the reader, so none for a file or a stream of the system.
#[derive(Drop)]
pub struct StdSource<I> {
    inner: I,
    faults: u64,
}

impl<I> StdSource<I> {
    /// A source over this reader, with no fault yet.
    pub fn new(inner: I) -> StdSource<I>
        ensures { failed_reads result ≡ 0 }
    {
        StdSource { inner, faults: 0 }
    }
}

impl<I: Read> Source for StdSource<I> {
    ghost left = { λ s. I.remaining s.inner };

    ghost fault_count = { failed_reads };

    fn read(&mut self, buf: &mut [u8]) -> Result<usize, Failed> {
        match self.inner.read(buf) {
            Ok(count) => Ok(count),
            Err(_) => {
                self.faults = self.faults.saturating_add(1);
                Err(Failed)
            }
        }
    }

    fn faults(&self) -> u64 {
        self.faults
    }
}

/// A writer of std as a sink. Each error of the writer is a fault, and so is a write of no octets. It tells the octets
/// put out where std tells them of the writer, so none for a file or a stream of the system. It never flushes.
#[derive(Drop)]
pub struct StdSink<I> {
    inner: I,
    faults: u64,
}

impl<I> StdSink<I> {
    /// A sink over this writer, with no fault yet.
    pub fn new(inner: I) -> StdSink<I>
        ensures { failed_writes result ≡ 0 }
    {
        StdSink { inner, faults: 0 }
    }
}

impl<I: Write> Sink for StdSink<I> {
    ghost put_out = { λ s. I.contents s.inner };

    ghost fault_count = { failed_writes };

    fn write_all(&mut self, bytes: &[u8]) -> Result<(), Failed> {
        let written = write_whole(&mut self.inner, bytes);
        if written.is_err() {
            self.faults = self.faults.saturating_add(1);
        }
        written
    }

    fn faults(&self) -> u64 {
        self.faults
    }
}

/// Writes all of the octets, in as many writes as the writer needs. It fails at an error and at a write of nothing.
fn write_whole<W: Write>(writer: &mut W, bytes: &[u8]) -> Result<(), Failed>
    ensures { Puts (W.contents writer.old) (W.contents writer.new) result bytes.now }
{
    let mut rest = bytes;
    while !rest.is_empty() {
        match writer.write(rest) {
            Ok(0) | Err(_) => return Err(Failed),
            Ok(count) => rest = &rest[count..],
        }
    }
    Ok(())
}
