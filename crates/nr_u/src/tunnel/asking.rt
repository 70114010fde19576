//! What a delivery status asks for again.

ghost use Rattle.std.specs.Prelude.{◌≡◌, ℕ, ◌≤◌, ◌∷◌, ◌++◌, [], List, not, map, filter, IfOk, OnOk, OnErr, IsPermutation};
ghost use Rattle.std.specs.Ordering.{nat_cmp};
ghost use Rattle.std.specs.BTreeMap.{IsOrdered};
ghost use Rattle.nr_u.specs.Tunnel.Outgoing.{is_listed, is_open, asks};
ghost use Rattle.nr_u.specs.Tunnel.Waiting.{Covers, ByNumber, AreGiven};

use super::entries::{add_counts, take_out};
use crate::frame::Range;
use dc_base::Memory;
use std::alloc::Global;
use std::collections::{BTreeMap, BTreeSet};

/// Whether a PDU of this COUNT may be asked for again.
fn is_open(low: u32, confirmed: &BTreeSet<u32>, count: u32) -> bool
    ensures { result ≡ is_open low confirmed.now.keys count }
{
    low <= count && !confirmed.contains(&count)
}

/// Makes the numbers to look at fit this reference. Where it falls, PDUs are open again that were not,
/// and all are to be looked at. After `Memory` they are as before.
pub(crate) fn widen(
    askable: &mut BTreeMap<u32, u32>,
    unasked: &BTreeMap<u32, u32>,
    reference: u32,
    low: u32,
) -> Result<(), Memory>
    ensures covers { (confirmed : List ℕ) → Covers reference confirmed askable.old.entries unasked.now.entries
        → OnOk result (Covers low confirmed askable.new.entries unasked.now.entries) }
    ensures given { (next : ℕ) → AreGiven next askable.old.entries → AreGiven next unasked.now.entries → AreGiven next askable.new.entries }
    ensures err { OnErr result (askable.new.entries ≡ askable.old.entries) }
{
    if low < reference {
        *askable = unasked.clone()?;
    }
    Ok(())
}

/// The entries with a number in the range.
fn entries_in(
    alloc: Global,
    askable: &BTreeMap<u32, u32>,
    range: Range,
) -> Result<Vec<(u32, u32)>, Memory>
    requires { range.from ≤ range.to }
    ensures found { IfOk result (λ found. found.items ≡ filter (λ e. is_listed (range ∷ []) e.0) askable.now.entries) }
    ensures ordered { IsOrdered nat_cmp askable.now }
{
    let mut found = Vec::new(alloc);
    for (number, count) in askable.range(range.from..=range.to) {
        found.push((*number, *count))?;
    }
    Ok(found)
}

/// Those of the entries that may be asked for again.
fn open_among(
    alloc: Global,
    entries: &[(u32, u32)],
    low: u32,
    confirmed: &BTreeSet<u32>,
) -> Result<Vec<(u32, u32)>, Memory>
    ensures { IfOk result (λ found. found.items ≡ filter (λ e. is_open low confirmed.now.keys e.1) entries.now) }
{
    let found = entries
        .iter()
        .copied()
        .filter(|e| is_open(low, confirmed, e.1))
        .collect::<Vec<(u32, u32)>>(alloc)?;
    Ok(found)
}

/// Takes out what a frame asks for again of the numbers in one of its ranges, and adds its COUNTs to
/// those that it asks for. These numbers are not looked at again. After `Memory` both maps are as
/// before.
fn take_range(
    alloc: Global,
    unasked: &mut BTreeMap<u32, u32>,
    askable: &mut BTreeMap<u32, u32>,
    confirmed: &BTreeSet<u32>,
    low: u32,
    range: Range,
    again: &mut Vec<u32>,
) -> Result<(), Memory>
    requires sorted { ByNumber unasked.old.entries }
    requires covers { Covers low confirmed.now.keys askable.old.entries unasked.old.entries }
    ensures looked { OnOk result (askable.new.entries ≡ filter (λ e. not (is_listed (range ∷ []) e.0)) askable.old.entries) }
    ensures left { OnOk result (unasked.new.entries ≡ filter (λ e. not (asks low confirmed.now.keys (range ∷ []) e)) unasked.old.entries) }
    ensures again { OnOk result (again.new.items
        ≡ again.old.items ++ map (λ e. e.1) (filter (asks low confirmed.now.keys (range ∷ [])) unasked.old.entries)) }
    ensures err_askable { OnErr result (askable.new.entries ≡ askable.old.entries) }
    ensures err_unasked { OnErr result (unasked.new.entries ≡ unasked.old.entries) }
{
    if range.to < range.from {
        return Ok(());
    }
    let listed = entries_in(alloc, askable, range)?;
    let asked = open_among(alloc, listed.as_slice(), low, confirmed)?;
    add_counts(again, asked.as_slice())?;
    take_out(askable, listed.as_slice());
    take_out(unasked, asked.as_slice());
    Ok(())
}

/// Takes out what a frame asks for again, and answers its COUNTs. It looks at those of the listed
/// numbers alone that no frame listed before, while `low` does not fall. After `Memory` what is
/// left is given up.
pub(crate) fn take_asked(
    alloc: Global,
    unasked: &mut BTreeMap<u32, u32>,
    askable: &mut BTreeMap<u32, u32>,
    confirmed: &BTreeSet<u32>,
    low: u32,
    lost: &[Range],
) -> Result<Vec<u32>, Memory>
    requires sorted { ByNumber unasked.old.entries }
    requires covers { Covers low confirmed.now.keys askable.old.entries unasked.old.entries }
    ensures counts { IfOk result (λ counts. IsPermutation (map (λ e. e.1) (filter (asks low confirmed.now.keys lost.now) unasked.old.entries)) counts.items) }
    ensures left { OnOk result (unasked.new.entries ≡ filter (λ e. not (asks low confirmed.now.keys lost.now e)) unasked.old.entries) }
    ensures sorted { ByNumber unasked.new.entries }
    ensures covers { Covers low confirmed.now.keys askable.new.entries unasked.new.entries }
    ensures given { (next : ℕ) → AreGiven next unasked.old.entries → AreGiven next unasked.new.entries }
    ensures given_askable { (next : ℕ) → AreGiven next askable.old.entries → AreGiven next askable.new.entries }
{
    let mut again = Vec::new(alloc);
    for range in lost {
        take_range(alloc, unasked, askable, confirmed, low, *range, &mut again)?;
    }
    Ok(again)
}
