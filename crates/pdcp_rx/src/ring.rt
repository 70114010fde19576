//! The ring of the SDUs that came out of order: a COUNT has the slot at COUNT modulo the number of slots.

ghost use Rattle.std.specs.Prelude.{◌≡◌, ◌+◌, ◌-◌, ◌*◌, ◌%◌, ◌<◌, ◌≤◌, ◌^◌, ◌++◌, None, Some, length, take, drop, slice_set, replicate, vec_len, vec_capacity, IfOk, OnOk, OnErr, false, []};
ghost use Rattle.pdcp_rx.specs.Marks.{is_marked, marked, unmarked};
ghost use Rattle.std.specs.Option.{is_some};
ghost use Rattle.std.specs.List.{AllByRecursion};
ghost use Rattle.pdcp_rx.specs.Entries.{counts_of, is_stored, with_sdu};
ghost use Rattle.pdcp_rx.specs.Run.{run_from};
ghost use Rattle.pdcp_rx.specs.Ring.{slot_of, ring_from};

use dc_base::{Memory, Octets};
use std::alloc::Global;
use std::marker::Model;

/// The fewest slots of a ring that has any.
const FEWEST: usize = 64;

/// The slots of the SDUs, and a bitmap that has a bit for each. Contracts see it as the slots.
#[derive(Drop)]
pub(crate) struct Ring {
    slots: Vec<Option<Octets>>,
    marks: Vec<u64>,
}

impl Model for Ring {
    ghost use Rattle.std.specs.Prelude.{ℕ, List, Option};
    ghost use Rattle.pdcp_rx.specs.Marks.{MarksAre};

    ghost Value = { List (Option (List ℕ)) };

    ghost view = { λ a. a.slots.items };

    ghost invariant = { λ a. MarksAre a.marks.items a.slots.items };
}

impl Ring {
    /// A ring without slots.
    pub(crate) fn new(alloc: Global) -> Ring
        ensures { result ≡ [] }
    {
        Ring {
            slots: Vec::new(alloc),
            marks: Vec::new(alloc),
        }
    }

    /// A ring of free slots, so many.
    fn with_slots(alloc: Global, number: usize) -> Result<Ring, Memory>
        requires { number ≤ 2 ^ 18 }
        ensures { IfOk result (λ ring. ring ≡ replicate number None) }
    {
        Ok(Ring {
            slots: free_slots(alloc, number)?,
            marks: clear_words(alloc, (number + 63) / 64)?,
        })
    }

    /// The number of slots.
    fn len(&self) -> usize
        ensures number { result ≡ length self.now }
        ensures small { result < 2 ^ 63 }
    {
        self.slots.len()
    }

    /// Whether the slot of a COUNT is taken.
    fn is_taken(&self, count: usize) -> bool
        requires { 0 < length self.now }
        ensures { result ≡ is_some (slot_of self.now count) }
    {
        is_marked(&self.marks, count % self.slots.len())
    }

    /// Takes out what stands in the slot of a COUNT.
    fn free(&mut self, count: usize) -> Option<Octets>
        requires { 0 < length self.old }
        ensures was { result ≡ slot_of self.old count }
        ensures left { self.new ≡ slice_set self.old (count % length self.old) None }
    {
        let slot = count % self.slots.len();
        let was = self.slots[slot].take();
        unmark(&mut self.marks, slot);
        was
    }

    /// Puts an SDU into the slot of its COUNT.
    fn place(&mut self, count: usize, sdu: Octets)
        requires { 0 < length self.old }
        ensures { self.new ≡ slice_set self.old (count % length self.old) (Some sdu) }
    {
        let slot = count % self.slots.len();
        self.slots[slot] = Some(sdu);
        mark(&mut self.marks, slot);
    }
}

/// Whether the bit of a slot is set.
fn is_marked(marks: &Vec<u64>, slot: usize) -> bool
    requires { slot < 64 * length marks.now.items }
    ensures { result ≡ is_marked marks.now.items slot }
{
    marks[slot / 64] & (1 << (slot % 64)) != 0
}

/// Sets the bit of a slot.
fn mark(marks: &mut Vec<u64>, slot: usize)
    requires { slot < 64 * length marks.old.items }
    ensures { marks.new.items ≡ marked marks.old.items slot }
{
    let word = slot / 64;
    marks[word] = marks[word] | (1 << (slot % 64));
}

/// Clears the bit of a slot.
fn unmark(marks: &mut Vec<u64>, slot: usize)
    requires { slot < 64 * length marks.old.items }
    ensures { marks.new.items ≡ unmarked marks.old.items slot }
{
    let word = slot / 64;
    marks[word] = marks[word] & !(1 << (slot % 64));
}

/// Words with no bit set, so many.
fn clear_words(alloc: Global, number: usize) -> Result<Vec<u64>, Memory>
    ensures { IfOk result (λ words. words.items ≡ replicate number 0) }
{
    let mut words = Vec::with_capacity(alloc, number)?;
    for _ in 0..number {
        words.push(0)?;
    }
    Ok(words)
}

/// Free slots, so many.
fn free_slots(alloc: Global, number: usize) -> Result<Vec<Option<Octets>>, Memory>
    ensures { IfOk result (λ slots. slots.items ≡ replicate number None) }
{
    let mut slots = Vec::with_capacity(alloc, number)?;
    for _ in 0..number {
        slots.push(None)?;
    }
    Ok(slots)
}

/// Whether the SDU with a COUNT is stored in the ring from `deliv` on.
pub(crate) fn is_held(ring: &Ring, deliv: usize, count: usize) -> bool
    requires { deliv ≤ count }
    ensures { result ≡ is_stored count (ring_from ring.now deliv) }
{
    count - deliv < ring.len() && ring.is_taken(count)
}

/// The first COUNT from `count` on that is not stored, in the ring from `count` on.
pub(crate) fn first_gap(ring: &Ring, count: u32) -> u32
    requires { AllByRecursion (λ e. e.0 < 2 ^ 32 - 1) (ring_from ring.now count) }
    ensures { result ≡ count + length (run_from count (ring_from ring.now count)) }
{
    let mut gap = count;
    for _ in 0..ring.len() {
        if !ring.is_taken(gap as usize) {
            return gap;
        }
        gap += 1;
    }
    gap
}

/// Moves the first `number` of the SDUs in the ring from `count` on, which have consecutive COUNTs, to the end of those
/// that are handed up.
pub(crate) fn take_first(
    ring: &mut Ring,
    count: u32,
    number: usize,
    handed: &mut Vec<(u32, Octets)>,
)
    requires there { number ≤ length (run_from count (ring_from ring.old count)) }
    requires last { count + number < 2 ^ 32 }
    requires room { vec_len handed.old + number ≤ vec_capacity handed.old }
    ensures handed { handed.new.items ≡ handed.old.items ++ take number (ring_from ring.old count) }
    ensures left { ring_from ring.new (count + number) ≡ drop number (ring_from ring.old count) }
{
    let mut next = count;
    for _ in 0..number {
        let sdu = ring.free(next as usize).unwrap();
        handed.push((next, sdu)).unwrap();
        next += 1;
    }
}

/// The COUNTs of the SDUs in the ring from `deliv` on, ascending.
pub(crate) fn counts(alloc: Global, ring: &Ring, deliv: u32) -> Result<Vec<u32>, Memory>
    requires { AllByRecursion (λ e. e.0 < 2 ^ 32 - 1) (ring_from ring.now deliv) }
    ensures { IfOk result (λ counts. counts.items ≡ counts_of (ring_from ring.now deliv)) }
{
    let mut counts = Vec::new(alloc);
    let mut count = deliv as usize;
    for _ in 0..ring.len() {
        if ring.is_taken(count) {
            counts.push(count as u32)?;
        }
        count += 1;
    }
    Ok(counts)
}

/// Takes all SDUs out of the ring from `deliv` on, in ascending COUNT.
pub(crate) fn take_all(
    alloc: Global,
    ring: &mut Ring,
    deliv: u32,
) -> Result<Vec<(u32, Octets)>, Memory>
    requires { AllByRecursion (λ e. e.0 < 2 ^ 32 - 1) (ring_from ring.old deliv) }
    ensures { IfOk result (λ all. all.items ≡ ring_from ring.old deliv) }
{
    let mut all = Vec::new(alloc);
    let mut count = deliv as usize;
    for _ in 0..ring.len() {
        match ring.free(count) {
            Some(sdu) => all.push((count as u32, sdu))?,
            None => {}
        }
        count += 1;
    }
    Ok(all)
}

/// The number of slots of a ring that reaches `need` COUNTs past its least: a power of two.
fn slots_for(need: usize) -> usize
    requires { need < 2 ^ 17 }
    ensures reaches { need < result }
    ensures few { result ≤ 2 ^ 18 }
{
    let mut number = FEWEST;
    while number <= need {
        number *= 2;
    }
    number
}

/// Moves the SDUs of the ring from `deliv` on into one of free slots, which are no fewer.
fn move_all(from: &mut Ring, to: &mut Ring, deliv: u32)
    requires room { length from.old ≤ length to.old }
    requires free { to.old ≡ replicate (length to.old) None }
    ensures len { length to.new ≡ length to.old }
    ensures moved { ring_from to.new deliv ≡ ring_from from.old deliv }
{
    let mut count = deliv as usize;
    for _ in 0..from.len() {
        match from.free(count) {
            Some(sdu) => to.place(count, sdu),
            None => {}
        }
        count += 1;
    }
}

/// Makes the ring from `deliv` on reach `need` COUNTs past `deliv`. After `Memory` it is as before.
fn make_room(alloc: Global, ring: &mut Ring, deliv: u32, need: usize) -> Result<(), Memory>
    requires { need < 2 ^ 17 }
    ensures ok { OnOk result (need < length ring.new) }
    ensures same { ring_from ring.new deliv ≡ ring_from ring.old deliv }
{
    if need < ring.len() {
        return Ok(());
    }
    let mut more = Ring::with_slots(alloc, slots_for(need))?;
    move_all(ring, &mut more, deliv);
    *ring = more;
    Ok(())
}

/// Stores an SDU in the ring from `deliv` on, which grows where its COUNT is past it. After `Memory` what is stored is as
/// before.
pub(crate) fn insert(
    alloc: Global,
    ring: &mut Ring,
    deliv: u32,
    count: u32,
    sdu: Octets,
) -> Result<(), Memory>
    requires above { deliv ≤ count }
    requires near { count < deliv + 2 ^ 17 }
    requires new { is_stored count (ring_from ring.old deliv) ≡ false }
    ensures ok { OnOk result (ring_from ring.new deliv ≡ with_sdu count sdu (ring_from ring.old deliv)) }
    ensures err { OnErr result (ring_from ring.new deliv ≡ ring_from ring.old deliv) }
{
    make_room(alloc, ring, deliv, (count - deliv) as usize)?;
    ring.place(count as usize, sdu);
    Ok(())
}
