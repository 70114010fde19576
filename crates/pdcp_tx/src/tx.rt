//! The transmitting entity.

ghost use Rattle.std.specs.Prelude.{◌≡◌, ◌+◌, ◌-◌, ◌<◌, ◌≤◌, ◌^◌, [], All, Ok, IfOk, IfErr, OnOk, OnErr};
ghost use Rattle.pdcp_tx.specs.Sending.{take_sdu, hold_sdu, give_numbers, confirm_count, take_report, IsRefused};
ghost use Rattle.std.specs.List.Sorted.{IsStrictlyIncreasing};
ghost use Rattle.std.specs.Option.{option_copied};
ghost use Rattle.dc_base.specs.Count.{window};
ghost use Rattle.pdcp_tx.specs.Sender.{counts, low, sdu_at};

use crate::kept::{Kept, counts_of, drop_named, drop_one, into_live, least, number_all, sdu_at};
use crate::kept_sdus::KeptSdus;
use dc_base::{Memory, Octets, Seq, SnLen, window};
use std::alloc::Global;
use std::collections::VecDeque;
use std::marker::Model;
use thiserror::Error;

/// Why an SDU has no COUNT.
#[derive(Clone, Copy, Debug, PartialEq, Eq, Error)]
pub enum TxErr {
    /// The window has no room: `low` is the least COUNT that is not confirmed, and `next` the next one.
    #[error("COUNTs {low} to {next} fill the window")]
    Full { low: u32, next: u32 },
    /// COUNT 2^32 - 1 is never given.
    #[error("no COUNT is left")]
    Exhausted,
    /// There was no memory.
    #[error("out of memory")]
    Memory,
}

/// What an entity holds, as it is moved.
#[derive(Debug, Drop)]
pub struct TxParts {
    /// The length of the sequence numbers.
    pub n: SnLen,
    /// TX_NEXT: the COUNT that is given next.
    pub next: u32,
    /// The SDUs that are not confirmed, each with its COUNT, ascending.
    pub kept: Seq<(u32, Octets)>,
    /// The SDUs that wait for a COUNT, in order.
    pub held: Seq<Octets>,
}

/// A transmitting PDCP entity: TX_NEXT, the SDUs that have a COUNT and are not confirmed, and those that wait
/// for a COUNT.
#[derive(Drop)]
pub struct Tx {
    n: SnLen,
    next: u32,
    kept: Kept,
    held: VecDeque<Octets>,
}

impl Model for Tx {
    ghost use Rattle.pdcp_tx.specs.Sender.{Sender};
    ghost use Rattle.pdcp_tx.specs.Slots.{live, IsSlotQueue};

    ghost Value = { Sender };

    ghost view = { λ a. record { n = a.n; next = a.next; kept = live a.next a.kept.items; held = a.held.items } };

    ghost invariant = { λ a. IsSlotQueue a.n a.next a.kept.items };
}

impl Tx {
    /// An entity that has taken no SDU yet, and gives `first` as its first COUNT. What it keeps is taken from `alloc`.
    pub fn new(alloc: Global, n: SnLen, first: u32) -> Tx
        ensures { result ≡ record { n = n; next = first; kept = []; held = [] } }
    {
        Tx {
            n,
            next: first,
            kept: VecDeque::new(alloc),
            held: VecDeque::new(alloc),
        }
    }

    /// Gives the next COUNT to an SDU, and keeps it. It is `Full` exactly where `next - low` is at least the
    /// window, and else `Exhausted` exactly where `next` is 2^32 - 1. After an error the entity is as before,
    /// and the SDU is gone.
    pub fn take(&mut self, sdu: Octets) -> Result<u32, TxErr>
        ensures ok { IfOk result (λ count. take_sdu self.old sdu ≡ Ok (self.new, count)) }
        ensures err { IfErr result (IsRefused (take_sdu self.old sdu)) }
        ensures same { OnErr result (self.new ≡ self.old) }
    {
        let low = least(&self.kept, self.next);
        if self.next - low >= window(self.n) {
            return Err(TxErr::Full {
                low,
                next: self.next,
            });
        }
        if self.next == u32::MAX {
            return Err(TxErr::Exhausted);
        }
        let count = self.next;
        match self.kept.push_back((count, sdu)) {
            Ok(()) => {
                self.next += 1;
                Ok(count)
            }
            Err(_) => Err(TxErr::Memory),
        }
    }

    /// Keeps an SDU without a COUNT, behind those that wait already. After `Memory` the entity is as before.
    pub fn hold(&mut self, sdu: Octets) -> Result<(), Memory>
        ensures ok { OnOk result (self.new ≡ hold_sdu self.old sdu) }
        ensures err { OnErr result (self.new ≡ self.old) }
    {
        self.held.push_back(sdu)?;
        Ok(())
    }

    /// Gives the next COUNTs to all SDUs that wait, in order, and answers them. It is `Full` exactly where the
    /// window has no room for all, and else `Exhausted` exactly where one would have COUNT 2^32 - 1. After an
    /// error the entity is as before.
    pub fn give_numbers(&mut self) -> Result<Seq<u32>, TxErr>
        ensures ok { IfOk result (λ given. give_numbers self.old ≡ Ok (self.new, given)) }
        ensures err { IfErr result (IsRefused (give_numbers self.old)) }
        ensures same { OnErr result (self.new ≡ self.old) }
    {
        let low = least(&self.kept, self.next);
        let waiting = self.held.len();
        if waiting > (window(self.n) - (self.next - low)) as usize {
            return Err(TxErr::Full {
                low,
                next: self.next,
            });
        }
        if waiting > (u32::MAX - self.next) as usize {
            return Err(TxErr::Exhausted);
        }
        let Ok(mut counts) = Vec::with_capacity(*self.held.allocator(), waiting) else {
            return Err(TxErr::Memory);
        };
        if self.kept.reserve(waiting).is_err() {
            return Err(TxErr::Memory);
        }
        number_all(&mut self.next, &mut self.held, &mut self.kept, &mut counts);
        Ok(Seq::from_vec(counts))
    }

    /// The SDU with this COUNT was received: it is dropped. A COUNT that is not kept changes nothing.
    pub fn confirm(&mut self, count: u32)
        ensures { self.new ≡ confirm_count self.old count }
    {
        drop_one(&mut self.kept, self.next, count);
    }

    /// A status report came: the SDUs whose COUNTs it names are dropped (TS 38.323, 5.4.2).
    pub fn on_report(&mut self, fmc: u32, bits: &[u8])
        ensures { self.new ≡ take_report self.old fmc bits.now }
    {
        drop_named(&mut self.kept, self.next, fmc, bits);
    }

    /// The COUNTs that are not confirmed, ascending.
    pub fn unconfirmed(&self) -> Result<Seq<u32>, Memory>
        ensures { IfOk result (λ found. found ≡ counts self.now.kept) }
    {
        Ok(Seq::from_vec(counts_of(&self.kept, self.next)?))
    }

    /// The SDUs that are not confirmed, each with its COUNT, in ascending COUNT, lent out: a recovery sends them again
    /// (TS 38.323, 5.5). It takes no memory.
    pub fn kept(&self) -> KeptSdus<'_>
        ensures all { result ≡ self.now.kept }
        ensures ascending { IsStrictlyIncreasing (counts self.now.kept) }
        ensures below { All (λ count. count < self.now.next) (counts self.now.kept) }
        ensures near { All (λ count. self.now.next ≤ count + window self.now.n) (counts self.now.kept) }
    {
        KeptSdus::of(&self.kept, self.next)
    }

    /// The SDU with this COUNT: `None` exactly where it is not kept.
    pub fn sdu(&self, count: u32) -> Option<&[u8]>
        ensures { option_copied result ≡ sdu_at self.now.kept count }
    {
        sdu_at(&self.kept, self.next, count)
    }

    /// Low: the least COUNT that is not confirmed, or the next one.
    pub fn low(&self) -> u32
        ensures { result ≡ low self.now }
    {
        least(&self.kept, self.next)
    }

    /// TX_NEXT: the COUNT that is given next.
    pub fn next(&self) -> u32
        ensures { result ≡ self.now.next }
    {
        self.next
    }

    /// Takes the entity apart. It takes no memory, and `adopt` of the parts is the same entity.
    pub fn freeze(self) -> TxParts
        ensures parts { result ≡ record { n = self.n; next = self.next; kept = self.kept; held = self.held } }
        ensures ascending { IsStrictlyIncreasing (counts result.kept) }
        ensures below { All (λ count. count < result.next) (counts result.kept) }
        ensures near { All (λ count. result.next ≤ count + window result.n) (counts result.kept) }
    {
        TxParts {
            n: self.n,
            next: self.next,
            kept: Seq::from_vec(into_live(self.kept, self.next)),
            held: Seq::from_vec(self.held.into_vec()),
        }
    }

    /// The entity of these parts. It takes no memory.
    pub fn adopt(parts: TxParts) -> Tx
        requires ascending { IsStrictlyIncreasing (counts parts.kept) }
        requires below { All (λ count. count < parts.next) (counts parts.kept) }
        requires near { All (λ count. parts.next ≤ count + window parts.n) (counts parts.kept) }
        ensures { result ≡ record { n = parts.n; next = parts.next; kept = parts.kept; held = parts.held } }
    {
        Tx {
            n: parts.n,
            next: parts.next,
            kept: VecDeque::from_vec(parts.kept.into_vec()),
            held: VecDeque::from_vec(parts.held.into_vec()),
        }
    }
}
