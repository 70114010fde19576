//! Which refusal is the one that is said.

ghost use Rattle.std.specs.Prelude.{◌≡◌, bytes_eq};
ghost use Rattle.node_rules.specs.Acts.{first_refusal};
ghost use Rattle.transcript.specs.Words.{shape_word};

use dc_base::{Refusal, Shape};

/// The first refusal of a row whose condition holds.
pub fn first_refusal(rows: &[(bool, Refusal)]) -> Option<Refusal>
    ensures { result ≡ first_refusal rows.now }
{
    for (holds, why) in rows {
        if *holds {
            return Some(*why);
        }
    }
    None
}

/// Whether both are the same shape: their names are.
pub fn is_same_shape(x: Shape, y: Shape) -> bool
    ensures { result ≡ bytes_eq (shape_word x) (shape_word y) }
{
    x.at_second == y.at_second && x.dup == y.dup && x.legs == y.legs
}
