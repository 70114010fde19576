//! The receiving end of a tunnel: what came at a host, and the delivery status of it.

ghost use Rattle.std.specs.Prelude.{◌≡◌, ◌<◌, ◌^◌, [], not, false, nat_lt, if◌then◌else◌, option_map, IfSome, IfOk, OnOk, OnErr, filter};
ghost use Rattle.std.specs.Ordering.{nat_cmp};
ghost use Rattle.std.specs.BTreeMap.{insert_entry};
ghost use Rattle.std.specs.BTreeSet.{insert_key};
ghost use Rattle.dc_base.specs.Count.{modulus};
ghost use Rattle.nr_u.specs.Frames.{IsWritable};
ghost use Rattle.nr_u.specs.Tunnel.Incoming.{Ascends, has, contains, is_first, last, named, with_arrival, with_ack};
ghost use Rattle.nr_u.specs.Tunnel.Kept.{from_or, IsFirstOf};
ghost use Rattle.nr_u.specs.Tunnel.Delivery.{status_of, tag_of};

use super::NUMBERS;
use super::gaps::{add_below, drop_below, first_unlisted, gap_at, listed, narrow};
use crate::frame::{Frame, Range};
use dc_base::{Memory, SnLen, Tag};
use std::alloc::Global;
use std::collections::{BTreeMap, BTreeSet};
use std::marker::Model;

/// A PDU that came in a tunnel: the sequence number of a data PDU, whether it was sent again, and
/// its tag.
#[derive(Clone, Copy, Debug, PartialEq, Eq)]
pub struct Arrival {
    pub sn: Option<u32>,
    pub repeat: bool,
    pub tag: Tag,
}

/// The numbers that came in a tunnel, with what they carried, and which of them were acked (TS 38.425,
/// 5.4.2). It answers the delivery status that a host sends.
#[derive(Debug, Drop)]
pub struct Inbound {
    n: SnLen,
    came: BTreeMap<u32, Arrival>,
    unacked: BTreeSet<u32>,
    /// What came as the first send of a data PDU.
    firsts: BTreeMap<u32, Arrival>,
    /// The numbers below the highest that did not come: the last number of each gap, and its first.
    gaps: BTreeMap<u32, u32>,
    /// One more than the highest number that came.
    next: u32,
    alloc: Global,
}

impl Model for Inbound {
    ghost use Rattle.nr_u.specs.Tunnel.Incoming.{Incoming};
    ghost use Rattle.nr_u.specs.Tunnel.Kept.{IsInboundState};

    ghost Value = { Incoming };

    ghost view = { λ a. record { n = a.n; came = a.came.entries; unacked = a.unacked.keys } };

    ghost invariant = { λ a. IsInboundState a.came.entries a.unacked.keys a.firsts.entries a.gaps.entries a.next };
}

/// Whether this is a data PDU that was not sent again.
fn is_first(arrival: &Arrival) -> bool
    ensures { result ≡ is_first arrival.now }
{
    arrival.sn.is_some() && !arrival.repeat
}

/// Adds a new number to the first sends if it is one. After `Memory` they are as before.
fn add_first(
    firsts: &mut BTreeMap<u32, Arrival>,
    number: u32,
    arrival: &Arrival,
) -> Result<(), Memory>
    ensures ok { OnOk result (firsts.new.entries
        ≡ (if is_first arrival.now then insert_entry nat_cmp firsts.old.entries number arrival.now else firsts.old.entries)) }
    ensures err { OnErr result (firsts.new.entries ≡ firsts.old.entries) }
{
    if is_first(arrival) && firsts.insert(number, *arrival).is_err() {
        return Err(Memory);
    }
    Ok(())
}

/// Adds a number that is in none of the three, or leaves all three as they were.
fn add(
    came: &mut BTreeMap<u32, Arrival>,
    unacked: &mut BTreeSet<u32>,
    firsts: &mut BTreeMap<u32, Arrival>,
    number: u32,
    arrival: Arrival,
) -> Result<(), Memory>
    requires new { has number came.old.entries ≡ false }
    requires acked { contains number unacked.old.keys ≡ false }
    requires first { has number firsts.old.entries ≡ false }
    ensures came { OnOk result (came.new.entries ≡ insert_entry nat_cmp came.old.entries number arrival) }
    ensures unacked { OnOk result (unacked.new.keys ≡ insert_key nat_cmp unacked.old.keys number) }
    ensures firsts { OnOk result (firsts.new.entries
        ≡ (if is_first arrival then insert_entry nat_cmp firsts.old.entries number arrival else firsts.old.entries)) }
    ensures err_came { OnErr result (came.new.entries ≡ came.old.entries) }
    ensures err_unacked { OnErr result (unacked.new.keys ≡ unacked.old.keys) }
    ensures err_firsts { OnErr result (firsts.new.entries ≡ firsts.old.entries) }
{
    if unacked.insert(number).is_err() {
        return Err(Memory);
    }
    if add_first(firsts, number, &arrival).is_err() {
        unacked.remove(&number);
        return Err(Memory);
    }
    if came.insert(number, arrival).is_err() {
        unacked.remove(&number);
        firsts.remove(&number);
        return Err(Memory);
    }
    Ok(())
}

/// The least number that is not acked, and past all numbers if there is none.
fn first_unacked(unacked: &BTreeSet<u32>) -> u32
    ensures { IsFirstOf unacked.now.keys result }
{
    match unacked.first() {
        Some(number) => *number,
        None => NUMBERS,
    }
}

/// The last of the first sends below the limit.
fn last_below(firsts: &BTreeMap<u32, Arrival>, limit: u32) -> Option<Arrival>
    ensures { result ≡ option_map (λ a. a.1) (last (filter (λ a. nat_lt a.0 limit) firsts.now.entries)) }
{
    match firsts.range(..limit).next_back() {
        Some((_, arrival)) => Some(*arrival),
        None => None,
    }
}

/// Where the gap begins. A number past the highest has the gap from `next` on.
fn begin_of(gap: Option<Range>, next: u32) -> u32
    ensures { result ≡ from_or next gap }
{
    match gap {
        Some(gap) => gap.from,
        None => next,
    }
}

impl Inbound {
    /// A tunnel in which nothing came yet, with sequence numbers of this length.
    pub fn new(alloc: Global, n: SnLen) -> Inbound
        ensures { result ≡ record { n = n; came = []; unacked = [] } }
    {
        Inbound {
            n,
            came: BTreeMap::new(alloc),
            unacked: BTreeSet::new(alloc),
            firsts: BTreeMap::new(alloc),
            gaps: BTreeMap::new(alloc),
            next: 0,
            alloc,
        }
    }

    /// A PDU with this number (24 bits) comes, with its sequence number (12 or 18 bits) if it is a data
    /// PDU, its repeat flag and its tag. The answer is whether the number is new; one that came before
    /// changes nothing. After `Memory` all is as before.
    pub fn came(
        &mut self,
        number: u32,
        sn: Option<u32>,
        repeat: bool,
        tag: Tag,
    ) -> Result<bool, Memory>
        requires number { number < 2 ^ 24 }
        requires sn { IfSome sn (λ s. s < modulus self.old.n) }
        ensures new { IfOk result (λ new. new ≡ not (has number self.old.came)) }
        ensures ok { OnOk result (self.new ≡ with_arrival self.old number (record { sn = sn; repeat = repeat; tag = tag })) }
        ensures err { OnErr result (self.new ≡ self.old) }
    {
        if self.came.contains_key(&number) {
            return Ok(false);
        }
        let gap = gap_at(&self.gaps, number);
        let from = begin_of(gap, self.next);
        add_below(&mut self.gaps, from, number)?;
        let arrival = Arrival { sn, repeat, tag };
        let added = add(
            &mut self.came,
            &mut self.unacked,
            &mut self.firsts,
            number,
            arrival,
        );
        match added {
            Ok(()) => {
                narrow(&mut self.gaps, gap, number);
                self.next = self.next.max(number + 1);
                Ok(true)
            }
            Err(memory) => {
                drop_below(&mut self.gaps, from, number);
                Err(memory)
            }
        }
    }

    /// The PDU with this number is acked. A number that did not come is ignored. It takes no memory.
    pub fn acked(&mut self, number: u32)
        ensures { self.new ≡ with_ack self.old number }
    {
        self.unacked.remove(&number);
    }

    /// The PDU whose sequence number a status names.
    fn named(&self) -> Option<Arrival>
        ensures found { result ≡ option_map (λ a. a.1) (named self.now) }
        ensures ascends { Ascends 0 self.now.came }
    {
        let limit = first_unacked(&self.unacked).min(first_unlisted(&self.gaps));
        last_below(&self.firsts, limit)
    }

    /// The delivery status of what came (TS 38.425, 5.4.2), with the tag of the PDU that it
    /// names. It lists the gaps below the highest number that came, at most 168. It names the
    /// sequence number of the last data PDU, sent for the first time, in the longest front of the numbers
    /// that came whose members are all acked and lie below the first gap that is not listed.
    pub fn status(&self) -> Result<(Frame, Tag), Memory>
        ensures frame { IfOk result (λ s. s.0 ≡ status_of self.now) }
        ensures tag { IfOk result (λ s. s.1 ≡ tag_of self.now) }
        // It can be encoded.
        ensures writable { IfOk result (λ s. IsWritable s.0) }
        ensures ascends { Ascends 0 self.now.came }
    {
        let named = self.named();
        let lost = listed(self.alloc, &self.gaps)?;
        match named {
            Some(arrival) => {
                let highest = arrival.sn;
                Ok((Frame::Status { highest, lost }, arrival.tag))
            }
            None => {
                let highest = None;
                Ok((Frame::Status { highest, lost }, Tag::none()))
            }
        }
    }
}
