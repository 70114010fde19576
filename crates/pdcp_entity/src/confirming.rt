//! COUNTs that are confirmed together.

ghost use Rattle.std.specs.Prelude.{◌≡◌, fold, IfOk, OnOk, ℕ};
ghost use Rattle.std.specs.BTreeSet.{contains as has};
ghost use Rattle.std.specs.List.{filter};
ghost use Rattle.std.specs.Ordering.{nat_cmp};
ghost use Rattle.nr_u.specs.Tunnel.Incoming.{contains};
ghost use Rattle.pdcp_tx.specs.Sending.{confirm_count};

use dc_base::{Memory, Seq};
use pdcp_tx::Tx;
use std::alloc::Global;
use std::collections::BTreeSet;

/// The set of these COUNTs.
pub(crate) fn set_of(alloc: Global, counts: &[u32]) -> Result<BTreeSet<u32>, Memory>
    ensures { IfOk result (λ set. (c : ℕ) → has nat_cmp set c ≡ contains c counts.now) }
{
    let mut set = BTreeSet::new(alloc);
    for count in counts {
        set.insert(*count)?;
    }
    Ok(set)
}

/// Those of these COUNTs that are in a set, in their order.
pub(crate) fn those_in(
    alloc: Global,
    counts: &[u32],
    set: &BTreeSet<u32>,
) -> Result<Seq<u32>, Memory>
    ensures { IfOk result (λ found. found ≡ filter (has nat_cmp set.now) counts.now) }
{
    let mut found = Seq::new(alloc);
    for count in counts {
        if set.contains(count) {
            found.push(*count)?;
        }
    }
    Ok(found)
}

/// Confirms each of these COUNTs to a sending side.
pub(crate) fn drop_each(tx: &mut Tx, counts: &[u32])
    ensures { tx.new ≡ fold confirm_count tx.old counts.now }
{
    for count in counts {
        tx.confirm(*count);
    }
}
