//! The receiving end of a tunnel. After `Memory` it is as before.

ghost use Rattle.std.specs.Prelude.{◌≡◌, ℕ, ◌^◌, ◌<◌, ◌↔◌, ◌⊎◌, List, true, length, Some, None, IsSome, IsTrue, is_some, IfOk, IfErr, OnOk, OnErr};
ghost use Rattle.std.specs.Ordering.{nat_cmp};
ghost use Rattle.std.specs.BTreeMap.{insert_entry};
ghost use Rattle.gtpu.specs.Content.{view};
ghost use Rattle.forward.specs.Load.{Sdu as Forwarding, Load as Said, Piece, Total, Carries};
ghost use Rattle.forward.specs.Reading.{said_load};
ghost use Rattle.forward.specs.Forwarded.{after, nothing_came, whole};
ghost use Rattle.forward.specs.Kept.{under, IsFront, CameBelow, AreSmall, IsFirstMissing};
ghost use Rattle.forward.specs.Tunnel.{Tunnel, IsPacketOf, IsEndOf, IsLater, IsListSent};

use crate::load::{Load, carried};
use dc_base::{Memory, Octets, Seq};
use gtpu::Packet;
use std::alloc::Global;
use std::collections::BTreeMap;
use std::marker::Model;
use thiserror::Error;

/// Forward numbers have 24 bits.
const NUMBERS: u32 = 1 << 24;

/// An SDU with its PDCP SN, if it has one.
type Sdu = (Option<u32>, Octets);

/// The receiving end of a forwarding tunnel. Contracts see the SDUs by their forward numbers, which
/// ascend, and the total.
#[derive(Debug, Drop)]
pub struct ForwardIn {
    alloc: Global,
    /// The SDUs that came, by forward number.
    sdus: BTreeMap<u32, Sdu>,
    /// The number of all SDUs, if it came.
    total: Option<u32>,
    /// The first number that did not come.
    missing: u32,
}

impl Model for ForwardIn {
    ghost use Rattle.forward.specs.Forwarded.{Forwarded};
    ghost use Rattle.forward.specs.Kept.{IsFirstMissing};

    ghost Value = { Forwarded };

    ghost view = { λ a. record { sdus = a.sdus.entries; total = a.total } };

    ghost invariant = { λ a. IsFirstMissing a.sdus.entries a.missing };
}

/// Why there is no list.
#[derive(Debug, Drop, Error)]
pub enum ListErr {
    /// The total or an SDU below it did not come. The tunnel's end is given back as it was.
    #[error("not done")]
    NotDone(ForwardIn),
    /// There was no memory.
    #[error("out of memory")]
    Memory,
}

/// Whether an SDU of this number came.
fn has(sdus: &BTreeMap<u32, Sdu>, number: u32) -> bool
    ensures { result ≡ is_some (under sdus.now.entries number) }
{
    sdus.contains_key(&number)
}

/// Keeps an SDU.
fn keep(sdus: &mut BTreeMap<u32, Sdu>, number: u32, sdu: Sdu) -> Result<(), Memory>
    ensures ok { OnOk result (sdus.new.entries ≡ insert_entry nat_cmp sdus.old.entries number sdu) }
    ensures err { OnErr result (sdus.new.entries ≡ sdus.old.entries) }
{
    sdus.insert(number, sdu)?;
    Ok(())
}

/// The first number from `from` on that did not come.
fn first_missing(sdus: &BTreeMap<u32, Sdu>, from: u32) -> u32
    requires below { CameBelow sdus.now.entries from }
    requires small { AreSmall sdus.now.entries }
    ensures { IsFirstMissing sdus.now.entries result }
{
    let mut missing = from;
    while has(sdus, missing) {
        missing += 1;
    }
    missing
}

/// Takes out the SDU of this number, which came.
fn take_out(sdus: &mut BTreeMap<u32, Sdu>, number: u32) -> Sdu
    requires { IsSome (under sdus.old.entries number) }
    ensures value { under sdus.old.entries number ≡ Some result }
    ensures others { (q : ℕ) → number < q → under sdus.new.entries q ≡ under sdus.old.entries q }
{
    sdus.remove(&number).unwrap()
}

/// The SDUs of the numbers below the total, all of which came.
fn in_order(alloc: Global, sdus: BTreeMap<u32, Sdu>, total: u32) -> Result<Seq<Sdu>, Memory>
    requires { CameBelow sdus.entries total }
    ensures { IfOk result (IsFront sdus.entries total) }
{
    let mut sdus = sdus;
    let mut list = Seq::new(alloc);
    for number in 0..total {
        let sdu = take_out(&mut sdus, number);
        list.push(sdu)?;
    }
    Ok(list)
}

impl ForwardIn {
    /// An end to which nothing came. It takes memory from `alloc`.
    pub fn new(alloc: Global) -> ForwardIn
        ensures nothing { result ≡ nothing_came }
        ensures kept { (t : Tunnel) → IsEndOf t result }
    {
        ForwardIn {
            alloc,
            sdus: BTreeMap::new(alloc),
            total: None,
            missing: 0,
        }
    }

    /// Takes an SDU, unless one of its number came before.
    fn take_piece(&mut self, number: u32, sn: Option<u32>, sdu: &[u8]) -> Result<(), Memory>
        ensures ok { OnOk result (self.new ≡ after self.old (Piece number (sn, sdu.now))) }
        ensures err { OnErr result (self.new ≡ self.old) }
    {
        if number >= NUMBERS {
            return Err(Memory);
        }
        if has(&self.sdus, number) {
            return Ok(());
        }
        let sdu = Octets::from_slice(self.alloc, sdu)?;
        keep(&mut self.sdus, number, (sn, sdu))?;
        self.missing = first_missing(&self.sdus, self.missing);
        Ok(())
    }

    /// Takes a total, unless one came before.
    fn end_at(&mut self, total: u32)
        ensures { self.new ≡ after self.old (Total total) }
    {
        if self.total.is_none() {
            self.total = Some(total);
        }
    }

    /// Takes what a packet carries. The first SDU of each forward number counts, and the first total. A packet has
    /// forward numbers below 2^24; of an SDU with a greater one it says `Memory`.
    pub fn take(&mut self, load: &Load<'_>) -> Result<(), Memory>
        ensures ok { OnOk result (self.new ≡ after self.old (said_load load.now)) }
        ensures err { OnErr result (self.new ≡ self.old) }
    {
        match *load {
            Load::Piece { number, sn, sdu } => self.take_piece(number, sn, sdu),
            Load::Total { number } => {
                self.end_at(number);
                Ok(())
            }
            Load::Nothing => Ok(()),
        }
    }

    /// Takes what a packet carries.
    fn take_in(&mut self, p: &Packet<'_>) -> Result<(), Memory>
        ensures ok { OnOk result ((load : Said) × Carries (view p.now) load × (self.new ≡ after self.old load)) }
        ensures err { OnErr result (self.new ≡ self.old) }
    {
        let load = carried(self.alloc, p)?;
        self.take(&load)
    }

    /// Takes a packet of the tunnel. The first of each forward number counts, and the first total; any other
    /// packet changes nothing.
    pub fn came(&mut self, p: &Packet<'_>) -> Result<(), Memory>
        ensures ok { OnOk result ((load : Said) × Carries (view p.now) load × (self.new ≡ after self.old load)) }
        // A packet carries one thing.
        ensures only { (load : Said) → Carries (view p.now) load → OnOk result (self.new ≡ after self.old load) }
        // An end that has nothing but what the tunnel was given so far takes nothing else from a packet of it.
        ensures kept { (t : Tunnel) → length t.sdus < 2 ^ 24 → IsPacketOf t (view p.now) → IsEndOf t self.old → IsEndOf t self.new }
        // Both last when the tunnel is given more.
        ensures lasts { (t later : Tunnel) → IsLater t later → (IsPacketOf t (view p.now) → IsPacketOf later (view p.now)) × (IsEndOf t self.new → IsEndOf later self.new) }
        ensures err { OnErr result (self.new ≡ self.old) }
    {
        self.take_in(p)
    }

    /// The list of an end that is done, or the end as it was.
    fn list_if_done(self) -> Result<Seq<Sdu>, ListErr>
        ensures list { IfOk result (λ list. whole self ≡ Some list) }
        ensures err { IfErr result (λ e. ((e ≡ ListErr.Memory) × IsSome (whole self)) ⊎ ((e ≡ ListErr.NotDone self) × (whole self ≡ None))) }
    {
        let Some(total) = self.total else {
            return Err(ListErr::NotDone(self));
        };
        if self.missing < total {
            return Err(ListErr::NotDone(self));
        }
        let ForwardIn { alloc, sdus, .. } = self;
        match in_order(alloc, sdus, total) {
            Ok(list) => Ok(list),
            Err(Memory) => Err(ListErr::Memory),
        }
    }

    /// The SDUs in the order of their numbers. Where the end is not done, it is given back as it was, before any
    /// memory is asked for.
    pub fn into_list(self) -> Result<Seq<(Option<u32>, Octets)>, ListErr>
        ensures list { IfOk result (λ list. whole self ≡ Some list) }
        ensures only { (list : List Forwarding) → whole self ≡ Some list → IfOk result (λ made. made ≡ list) }
        // An end that is done, and has nothing but what the tunnel was given, has all of it, in order.
        ensures sent { (t : Tunnel) → IsEndOf t self → IsSome (whole self) → (whole self ≡ Some t.sdus) × (t.closed ≡ true) }
        // So the list is what was sent, whatever was lost, repeated or reordered on the way.
        ensures whatever_came { IfOk result (IsListSent self) }
        ensures err { IfErr result (λ e. ((e ≡ ListErr.Memory) × IsSome (whole self)) ⊎ ((e ≡ ListErr.NotDone self) × (whole self ≡ None))) }
    {
        self.list_if_done()
    }

    /// Whether the total and all SDUs below it came. It takes no memory, and the time of a comparison.
    pub fn is_done(&self) -> bool
        ensures { IsTrue result ↔ IsSome (whole self.now) }
    {
        match self.total {
            None => false,
            Some(total) => total <= self.missing,
        }
    }
}
