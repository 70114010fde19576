//! SDUs under ascending COUNTs, in a queue of slots. To confirm one inside empties its slot, and moves no other.

ghost use Rattle.std.specs.Prelude.{◌≡◌, ◌≢◌, ℕ, ◌+◌, ◌-◌, ◌<◌, ◌≤◌, ◌^◌, ◌==◌, ◌++◌, not, true, false, IfOk, [], length, slice_index_or, slice_set, vec_len, vec_capacity};
ghost use Rattle.std.specs.List.{filter, enumerate_from, range_with_len};
ghost use Rattle.std.specs.Bool.{OnTrue, OnFalse};
ghost use Rattle.std.specs.Option.{option_copied};
ghost use Rattle.std.specs.VecDeque.{deque_len, deque_capacity};
ghost use Rattle.pdcp_pdu.specs.Bitmap.{names};
ghost use Rattle.pdcp_tx.specs.Sender.{Entry, counts, least, sdu_at, is_kept, InWindow};
ghost use Rattle.dc_base.specs.declared.numbers.SnLen.{SnLen};
ghost use Rattle.pdcp_tx.specs.Slots.{is_live, opposite, count_at, live, is_due, AreSlots, begins_empty, IsSlotPlace};

use dc_base::Octets;
use pdcp_pdu::is_named;
use std::alloc::AllocError;
use std::collections::VecDeque;

/// SDUs under their COUNTs, which ascend, and empty slots between them.
pub(crate) type Kept = VecDeque<(u32, Octets)>;

/// Whether the slot with this mark has its SDU.
#[tactic(auto, unfolding(crate::specs::Slots::is_live))]
pub(crate) fn is_live(next: u32, mark: u32) -> bool
    ensures { result ≡ is_live next mark }
{
    let away = if mark < next {
        next - mark
    } else {
        mark - next
    };
    away < 1 << 30
}

/// The mark of an empty slot of this COUNT.
#[tactic(auto, unfolding(crate::specs::Slots::opposite))]
fn opposite(count: u32) -> u32
    ensures { result ≡ opposite count }
{
    if count < 1 << 31 {
        count + (1 << 31)
    } else {
        count - (1 << 31)
    }
}

/// The COUNT of the slot with this mark.
fn count_at(next: u32, mark: u32) -> u32
    ensures { result ≡ count_at next mark }
{
    if is_live(next, mark) {
        mark
    } else {
        opposite(mark)
    }
}

/// The COUNTs of the SDUs that are kept.
pub(crate) fn counts_of(kept: &Kept, next: u32) -> Result<Vec<u32>, AllocError>
    ensures { IfOk result (λ v. v.items ≡ counts (live next kept.now.items)) }
{
    kept.iter()
        .filter(|slot| is_live(next, slot.0))
        .map(|slot| slot.0)
        .collect(*kept.allocator())
}

/// The SDUs that are kept, under their COUNTs. It takes no memory.
pub(crate) fn into_live(mut kept: Kept, next: u32) -> Vec<(u32, Octets)>
    ensures { result.items ≡ live next kept.items }
{
    kept.retain(|slot| is_live(next, slot.0));
    kept.into_vec()
}

/// The least COUNT that is kept, or `next` where there is none.
pub(crate) fn least(kept: &Kept, next: u32) -> u32
    requires slots { AreSlots next kept.now.items }
    requires begins { begins_empty next kept.now.items ≡ false }
    ensures { result ≡ least next (live next kept.now.items) }
{
    match kept.front() {
        None => next,
        Some((count, _)) => *count,
    }
}

/// How many slots have a COUNT below this one.
fn place_of(kept: &Kept, next: u32, count: u32) -> usize
    requires { AreSlots next kept.now.items }
    ensures within { result ≤ length kept.now.items }
    ensures place { IsSlotPlace next count kept.now.items result }
{
    kept.partition_point(|slot| count_at(next, slot.0) < count)
}

/// Whether the SDU with this COUNT is kept, which has this place.
fn is_there(kept: &Kept, next: u32, place: usize, count: u32) -> bool
    requires slots { AreSlots next kept.now.items }
    requires place { IsSlotPlace next count kept.now.items place }
    ensures there { OnTrue result ((e : Entry) × (place < length kept.now.items) × (e ≡ slice_index_or kept.now.items place e) × (e.0 ≡ count) × (is_live next count ≡ true)) }
    ensures other { OnFalse result (is_kept (live next kept.now.items) count ≡ false) }
{
    match kept.get(place) {
        None => false,
        Some((mark, _)) => *mark == count && is_live(next, count),
    }
}

/// The SDU with this COUNT, where it is kept.
pub(crate) fn sdu_at(kept: &Kept, next: u32, count: u32) -> Option<&[u8]>
    requires { AreSlots next kept.now.items }
    ensures { option_copied result ≡ sdu_at (live next kept.now.items) count }
{
    let place = place_of(kept, next, count);
    if is_there(kept, next, place, count) {
        Some(kept[place].1.as_slice())
    } else {
        None
    }
}

/// Drops the SDU with this COUNT, where it is kept.
pub(crate) fn drop_one(kept: &mut Kept, next: u32, count: u32)
    requires { AreSlots next kept.old.items }
    ensures live { live next kept.new.items ≡ filter (λ e. not (e.0 == count)) (live next kept.old.items) }
    ensures window { (n : SnLen) → InWindow n next (live next kept.old.items) → InWindow n next (live next kept.new.items) }
    ensures slots { AreSlots next kept.new.items }
    ensures begins { begins_empty next kept.new.items ≡ false }
{
    empty_one(kept, next, count);
    drop_empty(kept, next);
}

/// Drops the SDU with this COUNT, where it is kept. Its slot stays.
fn empty_one(kept: &mut Kept, next: u32, count: u32)
    requires { AreSlots next kept.old.items }
    ensures live { live next kept.new.items ≡ filter (λ e. not (e.0 == count)) (live next kept.old.items) }
    ensures slots { AreSlots next kept.new.items }
{
    let place = place_of(kept, next, count);
    if is_there(kept, next, place, count) {
        empty(kept, place, count);
    }
}

/// Drops the SDU in this place, which has this COUNT. Its slot stays.
fn empty(kept: &mut Kept, place: usize, count: u32)
    requires { place < length kept.old.items }
    ensures { kept.new.items ≡ slice_set kept.old.items place (opposite count, []) }
{
    let nothing = Octets::new(*kept.allocator());
    kept[place] = (opposite(count), nothing);
}

/// Drops the empty slots in front.
fn drop_empty(kept: &mut Kept, next: u32)
    requires { AreSlots next kept.old.items }
    ensures live { live next kept.new.items ≡ live next kept.old.items }
    ensures slots { AreSlots next kept.new.items }
    ensures begins { begins_empty next kept.new.items ≡ false }
{
    while begins_empty(kept, next) {
        kept.pop_front();
    }
}

/// Whether the first slot is empty.
fn begins_empty(kept: &Kept, next: u32) -> bool
    ensures { result ≡ begins_empty next kept.now.items }
{
    match kept.front() {
        None => false,
        Some((mark, _)) => !is_live(next, *mark),
    }
}

/// Drops all SDUs whose COUNTs a status report names.
pub(crate) fn drop_named(kept: &mut Kept, next: u32, fmc: u32, bits: &[u8])
    requires { AreSlots next kept.old.items }
    ensures live { live next kept.new.items ≡ filter (λ e. not (names fmc bits.now e.0)) (live next kept.old.items) }
    ensures window { (n : SnLen) → InWindow n next (live next kept.old.items) → InWindow n next (live next kept.new.items) }
    ensures slots { AreSlots next kept.new.items }
    ensures begins { begins_empty next kept.new.items ≡ false }
{
    empty_named(kept, next, fmc, bits);
    drop_empty(kept, next);
}

/// Drops all SDUs whose COUNTs a status report names. Their slots stay.
fn empty_named(kept: &mut Kept, next: u32, fmc: u32, bits: &[u8])
    requires { AreSlots next kept.old.items }
    ensures live { live next kept.new.items ≡ filter (λ e. not (names fmc bits.now e.0)) (live next kept.old.items) }
    ensures slots { AreSlots next kept.new.items }
{
    let end = place_of(kept, next, past(fmc, bits));
    for place in 0..end {
        empty_if_named(kept, next, place, fmc, bits);
    }
}

/// Drops the SDU in this place, if it is there and a status report names its COUNT. Its slot stays.
fn empty_if_named(kept: &mut Kept, next: u32, place: usize, fmc: u32, bits: &[u8])
    requires slots { AreSlots next kept.old.items }
    requires inside { place < length kept.old.items }
    ensures slots { AreSlots next kept.new.items }
    ensures len { length kept.new.items ≡ length kept.old.items }
    ensures rest { filter (λ e. not (names fmc bits.now e.0)) (live next kept.new.items) ≡ filter (λ e. not (names fmc bits.now e.0)) (live next kept.old.items) }
    ensures others { (k : ℕ) → (d : Entry) → k ≢ place → slice_index_or kept.new.items k d ≡ slice_index_or kept.old.items k d }
    ensures done { (d : Entry) → is_due next fmc bits.now (slice_index_or kept.new.items place d).0 ≡ false }
{
    let mark = kept[place].0;
    if is_due(next, fmc, bits, mark) {
        empty(kept, place, mark);
    }
}

/// Whether the slot with this mark has its SDU, and a status report names it.
fn is_due(next: u32, fmc: u32, bits: &[u8], mark: u32) -> bool
    ensures { result ≡ is_due next fmc bits.now mark }
{
    is_live(next, mark) && is_named(fmc, bits, mark)
}

/// A COUNT from which on a report with this FMC and this bitmap names none.
fn past(fmc: u32, bits: &[u8]) -> u32
    ensures { (count : ℕ) → result ≤ count → count < 2 ^ 32 - 1 → names fmc bits.now count ≡ false }
{
    let octets = bits.len().min(1 << 29) as u64;
    (u64::from(fmc) + 8 * octets + 1).min(u64::from(u32::MAX)) as u32
}

/// Gives all held SDUs the COUNTs from `next` on, in order. There is room for them.
pub(crate) fn number_all(
    next: &mut u32,
    held: &mut VecDeque<Octets>,
    kept: &mut Kept,
    counts: &mut Vec<u32>,
)
    requires room_kept { deque_len kept.old + deque_len held.old ≤ deque_capacity kept.old }
    requires room_counts { vec_len counts.old + deque_len held.old ≤ vec_capacity counts.old }
    requires last { next.old + length held.old.items < 2 ^ 32 }
    ensures next { next.new ≡ next.old + length held.old.items }
    ensures held { held.new.items ≡ [] }
    ensures kept { kept.new.items ≡ kept.old.items ++ enumerate_from next.old held.old.items }
    ensures counts { counts.new.items ≡ counts.old.items ++ range_with_len next.old (length held.old.items) }
{
    while let Some(sdu) = held.pop_front() {
        kept.push_back_reserved((*next, sdu));
        counts.push(*next).unwrap();
        *next += 1;
    }
}
