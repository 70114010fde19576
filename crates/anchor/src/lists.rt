//! Lists, one behind the other.

ghost use Rattle.std.specs.Prelude.{◌≡◌, ◌++◌, IfOk};

use dc_base::{Memory, Seq};

/// The values of the one list and then those of the other.
pub(crate) fn joined<T: Drop>(first: Seq<T>, then: Seq<T>) -> Result<Seq<T>, Memory>
    ensures { IfOk result (λ all. all ≡ first ++ then) }
{
    let mut all = first.into_vec();
    let mut more = then.into_vec();
    all.append(&mut more)?;
    Ok(Seq::from_vec(all))
}
