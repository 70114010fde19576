ghost use Rattle.std.specs.Prelude.{◌≡◌, ◌↔◌, ℕ, ◌++◌, List, [], drop, length, min, take, IfOk, IsErr, OnErr, OnOk, Some};
ghost use Rattle.std.specs.Io.{ReadsAtMost};
ghost use Rattle.dc_outside.specs.Faults.{HasCause};
ghost use Rattle.dc_outside.specs.Octets.{Reads};

use crate::calls::next_fails;
use crate::{Failed, Source, SureSource};
use std::marker::Model;

/// Octets in memory, and the numbers of the reads that fail, counted from 1. Any other read gives as many as fit.
#[derive(Drop)]
pub struct MemSource {
    octets: SureSource,
    fail: Vec<u64>,
    reads: u64,
    faults: u64,
}

impl Model for MemSource {
    ghost use Rattle.dc_outside.specs.MemSource.{Source as State};

    ghost Value = { State };

    ghost view = { λ s. record { left = s.octets; fail = s.fail.items; reads = s.reads; faults = s.faults } };
}

impl MemSource {
    /// A source of these octets, whose reads with a number in `fail` fail.
    pub fn new(octets: Vec<u8>, fail: Vec<u64>) -> MemSource
        ensures octets { result.left ≡ octets.items }
        ensures fail { result.fail ≡ fail.items }
        ensures reads { result.reads ≡ 0 }
        ensures faults { result.faults ≡ 0 }
    {
        MemSource {
            octets: SureSource::new(octets),
            fail,
            reads: 0,
            faults: 0,
        }
    }

    /// The octets that were not given yet.
    pub fn left(&self) -> &[u8]
        ensures { result.now ≡ self.now.left }
    {
        self.octets.left()
    }
}

impl Source for MemSource {
    ghost use Rattle.dc_outside.specs.MemSource.{IsRefused, given, failed};

    ghost left = { λ s. Some s.left };

    ghost fault_count = { λ s. s.faults };

    fn read(&mut self, buf: &mut [u8]) -> Result<usize, Failed>
        ensures bound { ReadsAtMost result buf.new }
        ensures octets { Reads (Some self.old.left) (Some self.new.left) result buf.new }
        ensures cause { HasCause self.old.faults self.new.faults result }

        // A read fails exactly where its number says so, and takes nothing; any other gives as many octets as fit.
        ensures fails { IsErr result ↔ IsRefused self.old }
        ensures err { OnErr result ((self.new ≡ failed self.old) × (buf.new ≡ buf.old)) }
        ensures count { IfOk result (λ n. n ≡ min (length buf.old) (length self.old.left)) }
        ensures ok { IfOk result (λ n. self.new ≡ given self.old n) }
        ensures buffer { IfOk result (λ n. buf.new ≡ take n self.old.left ++ drop n buf.old) }
    {
        let is_refused = next_fails(&self.fail, self.reads);
        self.reads = self.reads.saturating_add(1);
        if is_refused {
            self.faults = self.faults.saturating_add(1);
            return Err(Failed);
        }
        self.octets.read(buf)
    }

    fn faults(&self) -> u64 {
        self.faults
    }
}
