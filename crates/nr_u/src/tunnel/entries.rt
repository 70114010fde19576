//! Numbers of a tunnel, each with the COUNT that was sent under it.

ghost use Rattle.std.specs.Prelude.{◌≡◌, ◌++◌, map, IfOk, OnOk, OnErr};
ghost use Rattle.std.specs.Ordering.{nat_cmp};
ghost use Rattle.std.specs.BTreeMap.{IsOrdered};
ghost use Rattle.nr_u.specs.Tunnel.Outgoing.{noted};
ghost use Rattle.nr_u.specs.Tunnel.Waiting.{taken_out};

use dc_base::Memory;
use std::collections::BTreeMap;

/// Notes the COUNT under its number, if there is one. After `Memory` the map is as before.
pub(crate) fn note(
    map: &mut BTreeMap<u32, u32>,
    number: u32,
    count: Option<u32>,
) -> Result<(), Memory>
    ensures ok { OnOk result (map.new.entries ≡ noted count number map.old.entries) }
    ensures err { OnErr result (map.new.entries ≡ map.old.entries) }
    ensures ordered { IsOrdered nat_cmp map.old → IsOrdered nat_cmp map.new }
{
    if let Some(count) = count {
        map.insert(number, count)?;
    }
    Ok(())
}

/// Takes entries out by their numbers.
pub(crate) fn take_out(map: &mut BTreeMap<u32, u32>, entries: &[(u32, u32)])
    ensures { map.new.entries ≡ taken_out map.old.entries entries.now }
{
    for entry in entries {
        map.remove(&entry.0);
    }
}

/// Adds the COUNTs of entries at the end.
pub(crate) fn add_counts(counts: &mut Vec<u32>, entries: &[(u32, u32)]) -> Result<(), Memory>
    ensures { OnOk result (counts.new.items ≡ counts.old.items ++ map (λ e. e.1) entries.now) }
{
    for entry in entries {
        counts.push(entry.1)?;
    }
    Ok(())
}
