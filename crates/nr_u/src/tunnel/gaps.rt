//! The gaps between the numbers that came: each by its last number, with its first.

ghost use Rattle.std.specs.Prelude.{◌≡◌, ◌<◌, ◌≤◌, ◌^◌, true, is_some, map, take, slice_get, OnOk, OnErr, IfOk, IfSome};
ghost use Rattle.std.specs.Ordering.{nat_cmp};
ghost use Rattle.std.specs.BTreeMap.{is_at};
ghost use Rattle.std.specs.Map.{lookup};
ghost use Rattle.nr_u.specs.Tunnel.Kept.{gap_range, gap_at, from_or, with_below, without_below, narrowed};

use super::NUMBERS;
use crate::frame::Range;
use dc_base::{Memory, Seq};
use std::alloc::Global;
use std::collections::BTreeMap;

/// How many gaps a status lists at most.
const LISTED: usize = 168;

/// The gap in which the number lies, of a number that did not come. None is past the highest.
pub(crate) fn gap_at(gaps: &BTreeMap<u32, u32>, number: u32) -> Option<Range>
    ensures { result ≡ gap_at number gaps.now.entries }
{
    match gaps.range(number..).next() {
        Some((to, from)) => Some(Range {
            from: *from,
            to: *to,
        }),
        None => None,
    }
}

/// Adds the numbers from `from` on and below the number as a gap, if there are some. After `Memory` the
/// gaps are as before.
pub(crate) fn add_below(gaps: &mut BTreeMap<u32, u32>, from: u32, number: u32) -> Result<(), Memory>
    ensures ok { OnOk result (gaps.new.entries ≡ with_below from number gaps.old.entries) }
    ensures err { OnErr result (gaps.new.entries ≡ gaps.old.entries) }
{
    if from < number {
        gaps.insert(number - 1, from)?;
    }
    Ok(())
}

/// Takes out what `add_below` added.
pub(crate) fn drop_below(gaps: &mut BTreeMap<u32, u32>, from: u32, number: u32)
    ensures { gaps.new.entries ≡ without_below from number gaps.old.entries }
{
    if from < number {
        gaps.remove(&(number - 1));
    }
}

/// Leaves of the gap in which the number lies what is above the number.
pub(crate) fn narrow(gaps: &mut BTreeMap<u32, u32>, gap: Option<Range>, number: u32)
    requires small { number < 2 ^ 24 }
    requires there { IfSome gap (λ g. is_some (lookup (is_at (nat_cmp g.to)) gaps.old.entries) ≡ true) }
    ensures { gaps.new.entries ≡ narrowed number gap gaps.old.entries }
{
    let Some(gap) = gap else {
        return;
    };
    if number < gap.to {
        let replaced: Result<_, _> = gaps.insert(gap.to, number + 1);
        replaced.unwrap();
    } else {
        gaps.remove(&gap.to);
    }
}

/// The first gaps, as many as a status lists.
pub(crate) fn listed(alloc: Global, gaps: &BTreeMap<u32, u32>) -> Result<Seq<Range>, Memory>
    ensures { IfOk result (λ lost. lost ≡ take 168 (map gap_range gaps.now.entries)) }
{
    let mut lost = Seq::new(alloc);
    for (to, from) in gaps {
        if lost.len() == LISTED {
            return Ok(lost);
        }
        lost.push(Range {
            from: *from,
            to: *to,
        })?;
    }
    Ok(lost)
}

/// Where the first gap begins that a status does not list, and past all numbers if there is none.
pub(crate) fn first_unlisted(gaps: &BTreeMap<u32, u32>) -> u32
    ensures { result ≡ from_or (2 ^ 24) (slice_get (map gap_range gaps.now.entries) 168) }
{
    let mut passed = 0;
    for (_, from) in gaps {
        if passed == LISTED {
            return *from;
        }
        passed += 1;
    }
    NUMBERS
}
