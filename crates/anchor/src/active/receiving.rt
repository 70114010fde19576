//! What comes to an active anchor.

ghost use Rattle.std.specs.Prelude.{◌≡◌, IfOk, IsNone};
ghost use Rattle.std.specs.Option.{option_map};
ghost use Rattle.node_rules.specs.Anchor.{active_anchor};
ghost use Rattle.node_rules.specs.AnchorReceiving.{air_ack, delivery_at};
ghost use Rattle.node_rules.specs.Choices.{by_policies};
ghost use Rattle.pdcp_pdu.specs.Pdu.{decoded};
ghost use Rattle.split_leg.specs.Stored.{margins};
ghost use Rattle.anchor.specs.Receiving.{octets_in};

use super::ActiveAnchor;
use crate::low::risen;
use dc_base::{Memory, Seq};
use node_rules::AnchorOut;
use nr_u::Frame;
use split_leg::Policies;

impl ActiveAnchor {
    /// Octets come as an uplink PDU; `None` exactly where they are none, and then all is as before.
    pub(crate) fn take_pdu(&mut self, octets: &[u8]) -> Result<Option<AnchorOut>, Memory>
        ensures came { IfOk result (λ out. option_map (λ o. (active_anchor self.new, o)) out ≡ octets_in (active_anchor self.old) (decoded self.old.entity.setup.n octets.now)) }
        ensures same { IfOk result (λ out. IsNone out → self.new ≡ self.old) }
    {
        let before = self.entity.low();
        let Some(ups) = self.entity.take_pdu(octets)? else {
            return Ok(None);
        };
        let low = risen(before, self.entity.low());
        let sends = Seq::new(self.alloc);
        Ok(Some(AnchorOut {
            adopted: false,
            ups,
            low,
            sends,
        }))
    }

    /// The confirm of the downlink PDU of this number on the leg of its own node comes.
    pub(crate) fn take_ack(&mut self, num: u32) -> Result<AnchorOut, Memory>
        ensures { IfOk result (λ out. (active_anchor self.new, out) ≡ air_ack (active_anchor self.old) num) }
    {
        let before = self.entity.low();
        let cell = self.entity.setup().anchor_cell();
        let count = self.entity.leg_acked(cell, num);
        self.entity.confirm(count)?;
        let low = risen(before, self.entity.low());
        Ok(AnchorOut {
            adopted: false,
            ups: Seq::new(self.alloc),
            low,
            sends: Seq::new(self.alloc),
        })
    }

    /// A delivery status comes (TS 38.425, 5.4.2): first it confirms; then what it asks for is sent again, in ascending COUNT.
    pub(crate) fn take_status(
        &mut self,
        status: &Frame,
        policies: &Policies,
    ) -> Result<AnchorOut, Memory>
        ensures { IfOk result (λ out. (active_anchor self.new, out) ≡ delivery_at (by_policies (margins policies.now)) self.old status.now) }
    {
        let before = self.entity.low();
        let verdict = self.tunnel.on_status(before, status)?;
        self.entity.confirm_all(verdict.confirmed.as_slice())?;
        let sends = self.send_counts(policies, verdict.again.as_slice())?;
        let low = risen(before, self.entity.low());
        Ok(AnchorOut {
            adopted: false,
            ups: Seq::new(self.alloc),
            low,
            sends,
        })
    }
}
