//! What comes of a step of an anchor.

ghost use Rattle.std.specs.Prelude.{◌≡◌};
ghost use Rattle.node_rules.specs.Anchor.{sending, silent};

use dc_base::{Flight, LinkId, Seq};
use node_rules::AnchorOut;
use std::alloc::Global;

/// Nothing.
pub(crate) fn silent(alloc: Global) -> AnchorOut
    ensures { result ≡ silent }
{
    sending(alloc, Seq::new(alloc))
}

/// Only sends.
pub(crate) fn sending(alloc: Global, sends: Seq<(LinkId, Flight)>) -> AnchorOut
    ensures { result ≡ sending sends }
{
    AnchorOut {
        adopted: false,
        ups: Seq::new(alloc),
        low: None,
        sends,
    }
}
