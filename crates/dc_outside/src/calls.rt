ghost use Rattle.std.specs.Prelude.{◌↔◌, ◌+◌, Contains, IsTrue};

/// Whether the call after this many has a number in the list. Calls are counted from 1. A count that stands at its last
/// value has no next number in the list.
pub(crate) fn next_fails(fail: &[u64], calls: u64) -> bool
    ensures { IsTrue result ↔ Contains fail.now (calls + 1) }
{
    match calls.checked_add(1) {
        Some(number) => fail.contains(&number),
        None => false,
    }
}
