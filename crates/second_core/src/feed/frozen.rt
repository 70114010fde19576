//! What is left of an anchor that was frozen before the line from the core ended.

ghost use Rattle.std.specs.Prelude.{◌≡◌, IfOk};
ghost use Rattle.node_rules.specs.Feed.{frozen_of, frozen_sdu_in};
ghost use Rattle.node_rules.specs.Freezing.{forward_end};

use anchor::ForwardingTunnel;
use dc_base::{Flight, Gen, LinkId, Memory, Seq};
use std::alloc::Global;
use std::marker::Model;

/// What is left of an anchor that was frozen before the line ended. After a call that answers `Memory` it is not used again.
#[derive(Drop)]
pub(crate) struct FrozenAnchor {
    alloc: Global,
    since: Gen,
    tunnel: ForwardingTunnel,
}

impl Model for FrozenAnchor {
    ghost use Rattle.node_rules.specs.Feed.{Frozen};

    ghost Value = { Frozen };

    ghost view = { λ a. record { since = a.since; tunnel = a.tunnel } };
}

impl FrozenAnchor {
    /// What is left of an anchor that began in this generation: `None` exactly where no tunnel stays open.
    pub(crate) fn of(
        alloc: Global,
        since: Gen,
        rest: Option<ForwardingTunnel>,
    ) -> Option<FrozenAnchor>
        ensures { result ≡ frozen_of since rest }
    {
        match rest {
            None => None,
            Some(tunnel) => Some(FrozenAnchor {
                alloc,
                since,
                tunnel,
            }),
        }
    }

    /// The generation of the change for which the anchor was frozen.
    pub(crate) fn generation(&self) -> Gen
        ensures { result ≡ self.now.tunnel.g }
    {
        self.tunnel.generation()
    }

    /// An SDU comes from the core: one of this bearer that was sent before the change is forwarded. A tunnel carries far fewer
    /// than 2^24 SDUs, each of at most 9000 octets; of another it says `Memory`.
    pub(crate) fn sdu_in(&mut self, g: Gen, sdu: &[u8]) -> Result<Seq<(LinkId, Flight)>, Memory>
        ensures { IfOk result (λ sends. (self.new, sends) ≡ frozen_sdu_in self.old g sdu.now) }
    {
        if self.since <= g && g < self.tunnel.generation() {
            let sends = self.tunnel.forward_fresh(sdu)?;
            Ok(sends)
        } else {
            Ok(Seq::new(self.alloc))
        }
    }

    /// The line ended for its change: the tunnel is closed and nothing is left.
    pub(crate) fn end(self) -> Result<Seq<(LinkId, Flight)>, Memory>
        ensures { IfOk result (λ sends. sends ≡ forward_end self.tunnel) }
    {
        self.tunnel.forward_end()
    }
}
