//! One leg: the PDUs that were put on it, and how many of their octets are outstanding.

ghost use Rattle.std.specs.Prelude.{◌≡◌, ℕ, ◌<◌, ◌≤◌, ◌+◌, ◌-◌, ◌*◌, ◌/◌, ◌%◌, ◌^◌, [], ◌∷◌, ◌++◌, ◌&&◌, ◌||◌, not, true, false, length, map, take, IfOk, OnOk, OnErr, IfSome, IfNone};
ghost use Rattle.std.specs.BTreeMap.{get};
ghost use Rattle.std.specs.BTreeSet.{contains};
ghost use Rattle.std.specs.Ordering.{nat_cmp};
ghost use Rattle.split_leg.specs.Indexes.{first_after, is_key_of, is_open_key, key_of};
ghost use Rattle.split_leg.specs.Legs.{LegState, acked_count, is_count, put_before, settle, settle_all, volume, with_ack, with_pdu};

use dc_base::Memory;
use std::alloc::Global;
use std::collections::{BTreeMap, BTreeSet};
use std::marker::Model;

/// A PDU that was put on a leg. Its number on the leg (NUM) is its place, from 0.
#[derive(Clone, Copy, Debug)]
pub struct Pdu {
    /// Its COUNT, or none for a control PDU.
    pub count: Option<u32>,
    pub octets: u64,
    /// A PDU of its COUNT was put on a leg by an earlier send.
    pub repeat: bool,
    /// Its ack came.
    pub acked: bool,
    /// Its COUNT was confirmed before its ack came.
    pub settled: bool,
}

impl Pdu {
    ghost use Rattle.std.specs.Prelude.{◌≡◌, ◌+◌};
    ghost use Rattle.split_leg.specs.Legs.{is_open, is_within, open_octets, settle};

    /// Whether its octets are outstanding.
    fn is_open(&self) -> bool
        ensures { result ≡ is_open self.now }
    {
        !self.repeat && !self.acked && !self.settled
    }

    /// How many of its octets are outstanding.
    fn open_octets(&self) -> u64
        ensures { result ≡ open_octets self.now }
    {
        if self.is_open() { self.octets } else { 0 }
    }

    /// Whether it has a COUNT from `first` up to below `end`.
    fn is_within(&self, first: u32, end: u64) -> bool
        ensures { result ≡ is_within first end self.now.count }
    {
        match self.count {
            Some(count) => first <= count && (count as u64) < end,
            None => false,
        }
    }

    /// Settles it if it is outstanding, with a COUNT from `first` up to below `end`, and answers how many
    /// octets are no longer outstanding.
    fn settle(&mut self, first: u32, end: u64) -> u64
        ensures after { self.new ≡ settle first end self.old }
        ensures octets { open_octets self.new + result ≡ open_octets self.old }
    {
        if self.is_open() && self.is_within(first, end) {
            self.settled = true;
            self.octets
        } else {
            0
        }
    }
}

/// A leg. `outstanding` counts octets; `firsts` has the number of the first PDU of each COUNT, and `open_keys`
/// the key of each outstanding data PDU, so that none has to be looked for.
#[derive(Debug, Drop)]
pub struct Leg {
    pdus: Vec<Pdu>,
    before: usize,
    failed: bool,
    outstanding: u64,
    firsts: BTreeMap<u32, usize>,
    open_keys: BTreeSet<u64>,
}

impl Model for Leg {
    ghost use Rattle.split_leg.specs.Legs.{LegState};

    ghost Value = { LegState };

    ghost use Rattle.std.specs.BTreeMap.{get};
    ghost use Rattle.std.specs.BTreeSet.{contains};
    ghost use Rattle.std.specs.Ordering.{nat_cmp};
    ghost use Rattle.split_leg.specs.Indexes.{IsIndexed};

    ghost view = { λ a. record { pdus = a.pdus.items; before = a.before; failed = a.failed } };

    ghost invariant = { λ a. IsIndexed a.pdus.items a.outstanding (λ c. get nat_cmp a.firsts c) (λ k. contains nat_cmp a.open_keys k) };
}

impl Leg {
    /// A live leg on which no PDU was put.
    pub(crate) fn new(alloc: Global) -> Leg
        ensures { result ≡ record { pdus = []; before = 0; failed = false } }
    {
        Leg {
            pdus: Vec::new(alloc),
            before: 0,
            failed: false,
            outstanding: 0,
            firsts: BTreeMap::new(alloc),
            open_keys: BTreeSet::new(alloc),
        }
    }

    /// Whether the leg failed.
    pub(crate) fn is_failed(&self) -> bool
        ensures { result ≡ self.now.failed }
    {
        self.failed
    }

    /// Marks the leg as failed.
    pub(crate) fn fail(&mut self)
        ensures { self.new ≡ record self.old { failed = true } }
    {
        self.failed = true;
    }

    /// What is put from now on is put by the next send.
    pub(crate) fn begin_send(&mut self)
        ensures { self.new ≡ record self.old { before = length self.old.pdus } }
    {
        self.before = self.pdus.len();
    }

    /// How many octets are outstanding.
    pub(crate) fn volume(&self) -> u64
        ensures volume { result ≡ volume self.now.pdus }
        ensures bound { result ≤ 65535 * length self.now.pdus }
        ensures fewer { length self.now.pdus < 2 ^ 32 }
    {
        self.outstanding
    }

    /// How many PDUs were put here: the number that the next one gets.
    pub(crate) fn next_num(&self) -> u32
        ensures { result ≡ length self.now.pdus }
    {
        self.pdus.len() as u32
    }

    /// Whether an earlier send put a PDU of this COUNT here.
    pub(crate) fn put_before(&self, count: u32) -> bool
        ensures { result ≡ put_before count self.now }
    {
        match self.firsts.get(&count) {
            Some(first) => *first < self.before,
            None => false,
        }
    }

    /// Puts a PDU on the leg, and answers its number.
    pub(crate) fn put(
        &mut self,
        count: Option<u32>,
        octets: usize,
        repeat: bool,
    ) -> Result<u32, Memory>
        requires fewer { length self.old.pdus < 2 ^ 32 - 1 }
        requires octets { octets ≤ 65535 }
        ensures number { IfOk result (λ num. num ≡ length self.old.pdus) }
        ensures ok { OnOk result (self.new ≡ with_pdu self.old count octets repeat) }
        ensures err { OnErr result (self.new ≡ self.old) }
    {
        let num = self.pdus.len() as u32;
        self.pdus.reserve(1)?;
        note(&mut self.firsts, &mut self.open_keys, count, repeat, num)?;
        let pdu = Pdu {
            count,
            octets: octets as u64,
            repeat,
            acked: false,
            settled: false,
        };
        self.outstanding += pdu.open_octets();
        self.pdus.push(pdu).unwrap();
        Ok(num)
    }

    /// Takes the ack of PDU `num`, and answers the PDU's COUNT.
    pub(crate) fn acked(&mut self, num: u32) -> Option<u32>
        ensures count { result ≡ acked_count self.old.pdus num }
        ensures after { self.new ≡ with_ack self.old num }
    {
        let place = num as usize;
        if place >= self.pdus.len() {
            return None;
        }
        let pdu = self.pdus[place];
        if pdu.acked {
            return None;
        }
        self.outstanding -= pdu.open_octets();
        forget_open(&mut self.open_keys, pdu.count, num);
        self.pdus[place] = Pdu { acked: true, ..pdu };
        pdu.count
    }

    /// Settles the outstanding PDUs with a COUNT from `first` up to below `end`.
    pub(crate) fn settle(&mut self, first: u32, end: u64)
        ensures { self.new ≡ settle_all first end self.old }
    {
        self.outstanding -= settle_open(&mut self.pdus, &mut self.open_keys, first, end);
    }
}

/// Notes that the PDU with this number is the first of its COUNT, unless an earlier one is. After `Memory` all is
/// as before.
fn note_first(firsts: &mut BTreeMap<u32, usize>, count: Option<u32>, num: u32) -> Result<(), Memory>
    ensures ok { OnOk result ((c : ℕ) → get nat_cmp firsts.new c ≡ first_after (is_count c count) num (get nat_cmp firsts.old c)) }
    ensures err { OnErr result ((c : ℕ) → get nat_cmp firsts.new c ≡ get nat_cmp firsts.old c) }
{
    let Some(count) = count else {
        return Ok(());
    };
    if firsts.contains_key(&count) {
        return Ok(());
    }
    firsts.insert(count, num as usize)?;
    Ok(())
}

/// The key of an outstanding data PDU: its COUNT, and below it its number.
fn key_of(count: u32, num: u32) -> u64
    ensures { result ≡ key_of count num }
{
    u64::from(count) * (1 << 32) + u64::from(num)
}

/// Notes that the PDU with this number is outstanding, unless it is a repeat or a control PDU. After `Memory` all
/// is as before.
fn note_open(
    open_keys: &mut BTreeSet<u64>,
    count: Option<u32>,
    repeat: bool,
    num: u32,
) -> Result<(), Memory>
    ensures ok { OnOk result ((k : ℕ) → contains nat_cmp open_keys.new k ≡ (contains nat_cmp open_keys.old k || (not repeat && is_key_of count num k))) }
    ensures err { OnErr result ((k : ℕ) → contains nat_cmp open_keys.new k ≡ contains nat_cmp open_keys.old k) }
{
    let Some(count) = count else {
        return Ok(());
    };
    if repeat {
        return Ok(());
    }
    open_keys.insert(key_of(count, num))?;
    Ok(())
}

/// Forgets that the PDU with this COUNT and this number is outstanding.
fn forget_open(open_keys: &mut BTreeSet<u64>, count: Option<u32>, num: u32)
    ensures { (k : ℕ) → contains nat_cmp open_keys.new k ≡ (contains nat_cmp open_keys.old k && not (is_key_of count num k)) }
{
    if let Some(count) = count {
        open_keys.remove(&key_of(count, num));
    }
}

/// Notes one more PDU, which has this number and has no key yet. After `Memory` all is as before.
fn note(
    firsts: &mut BTreeMap<u32, usize>,
    open_keys: &mut BTreeSet<u64>,
    count: Option<u32>,
    repeat: bool,
    num: u32,
) -> Result<(), Memory>
    requires { (k : ℕ) → is_key_of count num k ≡ true → contains nat_cmp open_keys.old k ≡ false }
    ensures firsts { OnOk result ((c : ℕ) → get nat_cmp firsts.new c ≡ first_after (is_count c count) num (get nat_cmp firsts.old c)) }
    ensures open_keys { OnOk result ((k : ℕ) → contains nat_cmp open_keys.new k ≡ (contains nat_cmp open_keys.old k || (not repeat && is_key_of count num k))) }
    ensures err_firsts { OnErr result ((c : ℕ) → get nat_cmp firsts.new c ≡ get nat_cmp firsts.old c) }
    ensures err_open_keys { OnErr result ((k : ℕ) → contains nat_cmp open_keys.new k ≡ contains nat_cmp open_keys.old k) }
{
    note_open(open_keys, count, repeat, num)?;
    match note_first(firsts, count, num) {
        Ok(()) => Ok(()),
        Err(memory) => {
            forget_open(open_keys, count, num);
            Err(memory)
        }
    }
}

/// The number of an outstanding data PDU with a COUNT from `first` up to below `end`: of the least such COUNT, the
/// first.
fn next_open(open_keys: &BTreeSet<u64>, first: u32, end: u64) -> Option<u32>
    ensures found { IfSome result (λ num. (c : ℕ) × (contains nat_cmp open_keys.now (key_of c num) ≡ true) × (first ≤ c) × (c < end)) }
    ensures none { IfNone result ((k : ℕ) → contains nat_cmp open_keys.now k ≡ true → first ≤ k / 2 ^ 32 → end ≤ k / 2 ^ 32) }
{
    let key = *open_keys.range(key_of(first, 0)..).next()?;
    if key / (1 << 32) < end {
        Some((key % (1 << 32)) as u32)
    } else {
        None
    }
}

/// Settles the outstanding PDUs with a COUNT from `first` up to below `end`, and answers how many octets are no
/// longer outstanding.
fn settle_open(pdus: &mut Vec<Pdu>, open_keys: &mut BTreeSet<u64>, first: u32, end: u64) -> u64
    requires keys { (k : ℕ) → contains nat_cmp open_keys.old k ≡ is_open_key pdus.old.items k }
    requires fewer { length pdus.old.items < 2 ^ 32 }
    requires fits { volume pdus.old.items < 2 ^ 64 }
    ensures after { pdus.new.items ≡ map (settle first end) pdus.old.items }
    ensures octets { volume pdus.new.items + result ≡ volume pdus.old.items }
    ensures keys { (k : ℕ) → contains nat_cmp open_keys.new k ≡ is_open_key pdus.new.items k }
{
    let mut octets = 0;
    while let Some(num) = next_open(open_keys, first, end) {
        let pdu = &mut pdus[num as usize];
        forget_open(open_keys, pdu.count, num);
        octets += pdu.settle(first, end);
    }
    octets
}
