//! The anchor's end of the tunnel to the host of the other leg (TS 38.425, 5.4).

ghost use Rattle.std.specs.Prelude.{◌≡◌, IfOk, OnOk};
ghost use Rattle.nr_u.specs.Tunnel.Outgoing.{with_sent};
ghost use Rattle.nr_u.specs.Tunnel.Verdicts.{after_frame, again_of, confirmed_of};
ghost use Rattle.node_rules.specs.Anchor.{new_tunnel};
ghost use Rattle.node_rules.specs.AnchorReceiving.{ascending};

use dc_base::{Memory, SnLen};
use nr_u::{Frame, Outbound, Verdict};
use std::alloc::Global;
use std::marker::Model;

/// How many numbers there are.
const NUMBERS: u32 = 1 << 24;

/// The sending end of the tunnel, which counts the numbers that it gave. After a call that answers `Memory` it gives no more.
#[derive(Drop)]
pub(crate) struct HostTunnel {
    outbound: Outbound,
    given: u32,
}

impl Model for HostTunnel {
    ghost use Rattle.std.specs.Prelude.{◌≡◌, ◌<◌, ◌^◌};
    ghost use Rattle.nr_u.specs.Tunnel.Outgoing.{Outgoing};

    ghost Value = { Outgoing };

    ghost view = { λ a. a.outbound };

    // The count is right as long as there is a next number.
    ghost invariant = { λ a. a.given < 2 ^ 24 → a.given ≡ a.outbound.next };
}

impl HostTunnel {
    /// A tunnel in which nothing was sent yet.
    pub(crate) fn new(alloc: Global, n: SnLen) -> HostTunnel
        ensures { result ≡ new_tunnel n }
    {
        HostTunnel {
            outbound: Outbound::new(alloc, n),
            given: 0,
        }
    }

    /// A PDU is sent, under the next number. A tunnel carries far fewer than 2^24 PDUs in a generation; of one more it says
    /// `Memory`.
    pub(crate) fn sent(&mut self, count: Option<u32>, repeat: bool) -> Result<u32, Memory>
        ensures number { IfOk result (λ number. number ≡ self.old.next) }
        ensures after { OnOk result (self.new ≡ with_sent self.old (record { count = count; repeat = repeat })) }
    {
        let given = self.given;
        if given >= NUMBERS {
            return Err(Memory);
        }
        self.given = NUMBERS;
        let number = self.outbound.sent(count, repeat)?;
        self.given = given + 1;
        Ok(number)
    }

    /// A delivery status comes. `low` is the least COUNT that is not confirmed.
    pub(crate) fn on_status(&mut self, low: u32, status: &Frame) -> Result<Verdict, Memory>
        ensures after { OnOk result (self.new ≡ after_frame self.old low status.now) }
        ensures confirmed { IfOk result (λ v. v.confirmed ≡ confirmed_of self.old low status.now) }
        ensures again { IfOk result (λ v. v.again ≡ ascending (again_of self.old low status.now)) }
    {
        let given = self.given;
        self.given = NUMBERS;
        let verdict = self.outbound.on_status(low, status)?;
        self.given = given;
        Ok(verdict)
    }
}
