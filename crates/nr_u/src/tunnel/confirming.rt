//! What a delivery status confirms of the first sends that wait.

ghost use Rattle.std.specs.Prelude.{◌≡◌, ◌++◌, ◌&&◌, not, nat_le, true, map, filter, take_while, Some, IfOk, OnOk, OnErr};
ghost use Rattle.std.specs.Ordering.{nat_cmp};
ghost use Rattle.std.specs.BTreeMap.{IsOrdered};
ghost use Rattle.nr_u.specs.Frames.{AreRanges};
ghost use Rattle.nr_u.specs.Tunnel.Outgoing.{is_listed, confirms};
ghost use Rattle.nr_u.specs.Tunnel.Waiting.{Climbs, AreGiven, lies_in};

use super::NUMBERS;
use super::entries::{add_counts, take_out};
use crate::frame::Range;
use dc_base::Memory;
use std::alloc::Global;
use std::collections::BTreeMap;

/// Whether the ranges have numbers of 24 bits, and each ends where it begins or above, and begins
/// above the end of the one before.
fn are_ranges(lost: &[Range]) -> bool
    ensures { result ≡ true → AreRanges lost.now }
{
    let mut low = 0;
    for range in lost {
        if range.from < low || range.to < range.from || range.to >= NUMBERS {
            return false;
        }
        low = range.to + 1;
    }
    true
}

/// Whether the number is in a listed range.
fn is_listed(lost: &[Range], number: u32) -> bool
    ensures { result ≡ is_listed lost.now number }
{
    lost.iter().any(|r| r.from <= number && number <= r.to)
}

/// Whether a frame confirms the first send of this COUNT under this number.
fn confirms(highest: u32, lost: &[Range], number: u32, count: u32) -> bool
    ensures { result ≡ confirms (Some highest) lost.now (number, count) }
{
    count <= highest && !is_listed(lost, number)
}

/// Adds what waits under the numbers from `from` on and below `end`, up to the first COUNT above
/// the highest.
fn add_between(
    found: &mut Vec<(u32, u32)>,
    waiting: &BTreeMap<u32, u32>,
    from: u32,
    end: u32,
    highest: u32,
) -> Result<(), Memory>
    ensures added { OnOk result (found.new.items ≡ found.old.items ++ take_while (λ e. nat_le e.1 highest) (filter (lies_in from end) waiting.now.entries)) }
    ensures ordered { IsOrdered nat_cmp waiting.now }
{
    for (number, count) in waiting.range(from..end.max(from)) {
        if *count > highest {
            return Ok(());
        }
        found.push((*number, *count))?;
    }
    Ok(())
}

/// What a frame confirms of COUNTs that do not fall. It looks between the listed ranges alone, and
/// no further than the first COUNT above the highest there.
fn confirmed_between(
    alloc: Global,
    waiting: &BTreeMap<u32, u32>,
    next: u32,
    highest: u32,
    lost: &[Range],
) -> Result<Vec<(u32, u32)>, Memory>
    requires given { AreGiven next waiting.now.entries }
    requires climbs { Climbs 0 waiting.now.entries }
    requires ranges { AreRanges lost.now }
    ensures found { IfOk result (λ found. found.items ≡ filter (confirms (Some highest) lost.now) waiting.now.entries) }
    ensures ordered { IsOrdered nat_cmp waiting.now }
{
    let mut found = Vec::new(alloc);
    let mut from = 0;
    for range in lost {
        add_between(&mut found, waiting, from, range.from, highest)?;
        from = range.to + 1;
    }
    add_between(&mut found, waiting, from, next, highest)?;
    Ok(found)
}

/// What a frame confirms of COUNTs in any order, with ranges in any order.
fn confirmed_anywhere(
    alloc: Global,
    waiting: &BTreeMap<u32, u32>,
    highest: u32,
    lost: &[Range],
) -> Result<Vec<(u32, u32)>, Memory>
    ensures found { IfOk result (λ found. found.items ≡ filter (confirms (Some highest) lost.now) waiting.now.entries) }
    ensures ordered { IsOrdered nat_cmp waiting.now }
{
    let found = waiting
        .iter()
        .filter(|e| confirms(highest, lost, *e.0, *e.1))
        .map(|e| (*e.0, *e.1))
        .collect::<Vec<(u32, u32)>>(alloc)?;
    Ok(found)
}

/// What a frame confirms of what waits: all numbers are below `next`, and `in_order` says that the
/// COUNTs do not fall.
fn confirmed_in(
    alloc: Global,
    waiting: &BTreeMap<u32, u32>,
    next: u32,
    in_order: bool,
    highest: u32,
    lost: &[Range],
) -> Result<Vec<(u32, u32)>, Memory>
    requires given { AreGiven next waiting.now.entries }
    requires climbs { in_order ≡ true → Climbs 0 waiting.now.entries }
    ensures found { IfOk result (λ found. found.items ≡ filter (confirms (Some highest) lost.now) waiting.now.entries) }
    ensures ordered { IsOrdered nat_cmp waiting.now }
{
    if in_order && are_ranges(lost) {
        return confirmed_between(alloc, waiting, next, highest, lost);
    }
    confirmed_anywhere(alloc, waiting, highest, lost)
}

/// Takes out what a frame confirms up to a highest COUNT, and answers its COUNTs in the order of the
/// numbers. After `Memory` nothing is taken out.
fn take_up_to(
    alloc: Global,
    waiting: &mut BTreeMap<u32, u32>,
    next: u32,
    in_order: bool,
    highest: u32,
    lost: &[Range],
) -> Result<Vec<u32>, Memory>
    requires given { AreGiven next waiting.old.entries }
    requires climbs { in_order ≡ true → Climbs 0 waiting.old.entries }
    ensures counts { IfOk result (λ counts. counts.items ≡ map (λ e. e.1) (filter (confirms (Some highest) lost.now) waiting.old.entries)) }
    ensures left { OnOk result (waiting.new.entries ≡ filter (λ e. not (confirms (Some highest) lost.now e)) waiting.old.entries) }
    ensures err { OnErr result (waiting.new.entries ≡ waiting.old.entries) }
{
    let found = confirmed_in(alloc, waiting, next, in_order, highest, lost)?;
    let mut counts = Vec::new(alloc);
    add_counts(&mut counts, found.as_slice())?;
    take_out(waiting, found.as_slice());
    Ok(counts)
}

/// Takes out what a frame confirms, and answers its COUNTs in the order of the numbers. After `Memory`
/// nothing is taken out.
pub(crate) fn take_confirmed(
    alloc: Global,
    waiting: &mut BTreeMap<u32, u32>,
    next: u32,
    in_order: bool,
    highest: Option<u32>,
    lost: &[Range],
) -> Result<Vec<u32>, Memory>
    requires given { AreGiven next waiting.old.entries }
    requires climbs { in_order ≡ true → Climbs 0 waiting.old.entries }
    ensures counts { IfOk result (λ counts. counts.items ≡ map (λ e. e.1) (filter (confirms highest lost.now) waiting.old.entries)) }
    ensures left { OnOk result (waiting.new.entries ≡ filter (λ e. not (confirms highest lost.now e)) waiting.old.entries) }
    ensures err { OnErr result (waiting.new.entries ≡ waiting.old.entries) }
{
    match highest {
        None => Ok(Vec::new(alloc)),
        Some(highest) => take_up_to(alloc, waiting, next, in_order, highest, lost),
    }
}
