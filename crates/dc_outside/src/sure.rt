//! A source and a sink that never fail.
ghost use Rattle.std.specs.Prelude.{◌≡◌, ℕ, ◌++◌, List, drop, length, min, take, IsOk, Ok, Some, None};

use crate::{Failed, Sink, Source};
use std::marker::Model;

/// Octets in memory, each read of which gives as many as fit. It never fails.
#[derive(Drop)]
pub struct SureSource {
    octets: Vec<u8>,
    given: usize,
}

/// Contracts see the octets that were not given yet.
impl Model for SureSource {
    ghost use Rattle.std.specs.Prelude.{ℕ, ◌≤◌, List, drop, vec_len};

    ghost Value = { List ℕ };

    ghost view = { λ s. drop s.given s.octets.items };

    ghost invariant = { λ s. s.given ≤ vec_len s.octets };
}

impl SureSource {
    /// A source of these octets.
    pub fn new(octets: Vec<u8>) -> SureSource
        ensures { result ≡ octets.items }
    {
        SureSource { octets, given: 0 }
    }

    /// The octets that were not given yet.
    pub fn left(&self) -> &[u8]
        ensures { result.now ≡ self.now }
    {
        &self.octets[self.given..]
    }
}

impl Source for SureSource {
    ghost left = { λ s. Some s };

    ghost fault_count = { λ _. 0 };

    fn read(&mut self, buf: &mut [u8]) -> Result<usize, Failed>
        ensures given { result ≡ Ok (min (length buf.old) (length self.old)) }
        ensures taken { self.new ≡ drop (length buf.old) self.old }
        ensures buffer { buf.new ≡ take (length buf.old) self.old ++ drop (length self.old) buf.old }
    {
        let left = &self.octets[self.given..];
        let count = left.len().min(buf.len());
        buf[..count].copy_from_slice(&left[..count]);
        self.given += count;
        Ok(count)
    }

    fn faults(&self) -> u64 {
        0
    }
}

/// A sink that keeps nothing, tells no octets and never fails.
#[derive(Clone, Copy, Debug, Default)]
pub struct SureSink;

impl SureSink {
    /// A sink that keeps nothing.
    pub fn new() -> SureSink {
        SureSink
    }
}

impl Sink for SureSink {
    ghost put_out = { λ _. None };

    ghost fault_count = { λ _. 0 };

    fn write_all(&mut self, _bytes: &[u8]) -> Result<(), Failed>
        ensures { IsOk result }
    {
        Ok(())
    }

    fn faults(&self) -> u64 {
        0
    }
}
