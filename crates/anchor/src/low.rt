//! Low, where it rises.

ghost use Rattle.std.specs.Prelude.{◌≡◌};
ghost use Rattle.node_rules.specs.Entity.{risen};

/// Low after a step, where it rose.
pub(crate) fn risen(before: u32, after: u32) -> Option<u32>
    ensures { result ≡ risen before after }
{
    if before < after { Some(after) } else { None }
}
