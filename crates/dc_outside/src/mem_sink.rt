ghost use Rattle.std.specs.Prelude.{◌≡◌, ◌↔◌, ◌⊎◌, ℕ, ◌<◌, ◌≤◌, ◌++◌, List, [], length, take, vec_len, IsErr, IsTrue, OnErr, OnOk, Some};
ghost use Rattle.dc_outside.specs.Faults.{HasCause};
ghost use Rattle.dc_outside.specs.Octets.{Puts};

use crate::calls::next_fails;
use crate::{Failed, Sink};
use std::marker::Model;

/// Room in memory for octets, and the numbers of the writes that fail, counted from 1. A write that does not fit fails
/// too, and adds what fits.
#[derive(Drop)]
pub struct MemSink {
    octets: Vec<u8>,
    room: usize,
    fail: Vec<u64>,
    writes: u64,
    faults: u64,
}

impl Model for MemSink {
    ghost use Rattle.std.specs.Prelude.{◌≤◌, vec_len, vec_capacity};
    ghost use Rattle.dc_outside.specs.MemSink.{Sink as State};

    ghost Value = { State };

    ghost view = { λ s. record { octets = s.octets.items; room = s.room; fail = s.fail.items; writes = s.writes; faults = s.faults } };

    ghost invariant = { λ s. (vec_len s.octets ≤ s.room) × (s.room ≤ vec_capacity s.octets) };
}

impl MemSink {
    ghost use Rattle.dc_outside.specs.MemSink.{free};

    /// A sink with as much room as `room` has octets, whose writes with a number in `fail` fail.
    pub fn new(mut room: Vec<u8>, fail: Vec<u64>) -> MemSink
        ensures octets { result.octets ≡ [] }
        ensures room { result.room ≡ vec_len room }
        ensures fail { result.fail ≡ fail.items }
        ensures writes { result.writes ≡ 0 }
        ensures faults { result.faults ≡ 0 }
    {
        let fits = room.len();
        room.clear();
        MemSink {
            octets: room,
            room: fits,
            fail,
            writes: 0,
            faults: 0,
        }
    }

    /// What was put out.
    pub fn octets(&self) -> &[u8]
        ensures { result.now ≡ self.now.octets }
    {
        self.octets.as_slice()
    }

    /// Adds as many of the octets as fit, and answers whether all did.
    fn add(&mut self, bytes: &[u8]) -> bool
        ensures all { IsTrue result ↔ (length bytes.now ≤ free self.old) }
        ensures added { self.new ≡ record self.old { octets = self.old.octets ++ take (free self.old) bytes.now } }
    {
        let fitting = (self.room - self.octets.len()).min(bytes.len());
        let added = self.octets.extend_from_slice(&bytes[..fitting]);
        added.is_ok() && fitting == bytes.len()
    }
}

impl Sink for MemSink {
    ghost use Rattle.dc_outside.specs.MemSink.{IsRefused, free, written, failed};

    ghost put_out = { λ s. Some s.octets };

    ghost fault_count = { λ s. s.faults };

    fn write_all(&mut self, bytes: &[u8]) -> Result<(), Failed>
        ensures octets { Puts (Some self.old.octets) (Some self.new.octets) result bytes.now }
        ensures cause { HasCause self.old.faults self.new.faults result }

        // A write fails exactly where its number says so, and adds nothing, or where it does not fit, and adds what fits.
        ensures fails { IsErr result ↔ (IsRefused self.old ⊎ (free self.old < length bytes.now)) }
        ensures ok { OnOk result (self.new ≡ written self.old bytes.now) }
        ensures refused { IsRefused self.old → self.new ≡ failed self.old [] }
        ensures full { ¬ IsRefused self.old → free self.old < length bytes.now →
            self.new ≡ failed self.old (take (free self.old) bytes.now) }
    {
        let is_refused = next_fails(&self.fail, self.writes);
        self.writes = self.writes.saturating_add(1);
        if is_refused || !self.add(bytes) {
            self.faults = self.faults.saturating_add(1);
            return Err(Failed);
        }
        Ok(())
    }

    fn faults(&self) -> u64 {
        self.faults
    }
}
