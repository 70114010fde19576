//! An anchor with the PDCP entity and its end of the tunnel to the host.

ghost use Rattle.std.specs.Prelude.{◌≡◌, [], false, not, IfOk};
ghost use Rattle.node_rules.specs.Anchor.{new_tunnel, renew};
ghost use Rattle.node_rules.specs.AnchorSending.{anchor_recovers, anchor_sends, open_if, opens, recover_at, report_at, submit_as, submit_at, with_failure, with_numbers, with_sends};
ghost use Rattle.node_rules.specs.Choices.{by_policies};
ghost use Rattle.node_rules.specs.Readers.{entity_edges};
ghost use Rattle.node_rules.specs.Sending.{send_report};
ghost use Rattle.pdcp_pdu.specs.DataPdu.{IsPayload};
ghost use Rattle.pdcp_tx.specs.Sender.{low};
ghost use Rattle.pdcp_tx.specs.Sending.{give_numbers, take_sdu};
ghost use Rattle.split_leg.specs.Stored.{margins};

mod receiving;

use crate::host_tunnel::HostTunnel;
use crate::lists::joined;
use crate::sending::leg_sends;
use dc_base::{Flight, LinkId, Memory, Octets, Seq};
use node_rules::{Edges, OnLeg};
use pdcp_entity::{PdcpEntity, Setup};
use pdcp_tx::TxErr;
use split_leg::Policies;
use std::alloc::Global;
use std::marker::Model;

/// An anchor with the PDCP entity and its end of the tunnel to the host. It is closed until the reconfiguration is complete,
/// and open from then on. After a call that answers `Memory` it is not used again.
#[derive(Drop)]
pub(crate) struct ActiveAnchor {
    alloc: Global,
    entity: PdcpEntity,
    is_open: bool,
    tunnel: HostTunnel,
}

impl Model for ActiveAnchor {
    ghost use Rattle.node_rules.specs.Anchor.{Active};

    ghost Value = { Active };

    ghost view = { λ a. record { entity = a.entity; is_open = a.is_open; tunnel = a.tunnel } };
}

impl ActiveAnchor {
    /// A closed anchor with this entity, before anything was sent in its tunnel.
    pub(crate) fn closed(alloc: Global, entity: PdcpEntity) -> ActiveAnchor
        ensures { result ≡ record { entity = entity; is_open = false; tunnel = new_tunnel entity.setup.n } }
    {
        let n = entity.setup().n();
        ActiveAnchor {
            alloc,
            entity,
            is_open: false,
            tunnel: HostTunnel::new(alloc, n),
        }
    }

    /// What is set up in this generation.
    pub(crate) fn setup(&self) -> &Setup
        ensures { result.now ≡ self.now.entity.setup }
    {
        self.entity.setup()
    }

    /// RX_DELIV, the COUNT of the next SDU to hand up (TS 38.323, 7.1).
    pub(crate) fn rx_deliv(&self) -> u32
        ensures { result ≡ self.now.entity.rx.deliv }
    {
        self.entity.rx_deliv()
    }

    /// The least COUNT that is not confirmed, or the next one.
    pub(crate) fn low(&self) -> u32
        ensures { result ≡ low self.now.entity.tx }
    {
        self.entity.low()
    }

    /// The SN length, RX_DELIV and Low of the entity.
    pub(crate) fn edges(&self) -> Edges
        ensures { result ≡ entity_edges self.now.entity }
    {
        Edges {
            n: self.entity.setup().n(),
            deliv: self.entity.rx_deliv(),
            low: self.entity.low(),
        }
    }

    /// The entity alone.
    pub(crate) fn into_entity(self) -> PdcpEntity
        ensures { result ≡ self.entity }
    {
        self.entity
    }

    /// PDUs that its entity put on the legs are sent.
    fn carry(&mut self, on_legs: Seq<OnLeg>) -> Result<Seq<(LinkId, Flight)>, Memory>
        ensures { IfOk result (λ sends. (self.new, sends) ≡ with_sends self.old (self.old.entity, on_legs)) }
    {
        let setup = self.entity.setup();
        leg_sends(self.alloc, &mut self.tunnel, setup, on_legs)
    }

    /// The kept SDUs of these COUNTs are sent, in this order.
    fn send_counts(
        &mut self,
        policies: &Policies,
        counts: &[u32],
    ) -> Result<Seq<(LinkId, Flight)>, Memory>
        ensures { IfOk result (λ sends. (self.new, sends) ≡ anchor_sends (by_policies (margins policies.now)) self.old counts.now) }
    {
        let on_legs = self.entity.send_counts(policies, counts)?;
        self.carry(on_legs)
    }

    /// All that is kept is sent (TS 38.323, 5.4.1 and 5.5).
    fn send_kept(&mut self, policies: &Policies) -> Result<Seq<(LinkId, Flight)>, Memory>
        ensures { IfOk result (λ sends. (self.new, sends) ≡ anchor_recovers (by_policies (margins policies.now)) self.old) }
    {
        let on_legs = self.entity.send_kept(policies)?;
        self.carry(on_legs)
    }

    /// A status report is sent.
    fn send_report(&mut self, policies: &Policies) -> Result<Seq<(LinkId, Flight)>, Memory>
        ensures { IfOk result (λ sends. (self.new, sends) ≡ with_sends self.old (send_report (by_policies (margins policies.now)) self.old.entity)) }
    {
        let on_legs = self.entity.send_report(policies)?;
        self.carry(on_legs)
    }

    /// An SDU of 1 to 9000 octets is numbered and sent, or held where there is no room for it.
    fn submit_open(
        &mut self,
        sdu: Octets,
        policies: &Policies,
    ) -> Result<Seq<(LinkId, Flight)>, Memory>
        requires { IsPayload sdu }
        ensures { IfOk result (λ sends. (self.new, sends) ≡ submit_as (by_policies (margins policies.now)) self.old sdu (take_sdu self.old.entity.tx sdu)) }
    {
        match self.entity.take_or_hold(sdu)? {
            Some(count) => self.send_counts(policies, &[count]),
            None => Ok(Seq::new(self.alloc)),
        }
    }

    /// An SDU of 1 to 9000 octets is held: nothing is sent.
    fn hold(&mut self, sdu: Octets) -> Result<Seq<(LinkId, Flight)>, Memory>
        requires { IsPayload sdu }
        ensures { IfOk result (λ sends. (self.new, sends) ≡ submit_at false (by_policies []) self.old sdu) }
    {
        self.entity.hold(sdu)?;
        Ok(Seq::new(self.alloc))
    }

    /// An SDU of 1 to 9000 octets is submitted: an open anchor numbers and sends it, a closed one holds it (TS 38.323,
    /// 5.2.1).
    pub(crate) fn submit(
        &mut self,
        sdu: Octets,
        policies: &Policies,
    ) -> Result<Seq<(LinkId, Flight)>, Memory>
        requires { IsPayload sdu }
        ensures { IfOk result (λ sends. (self.new, sends) ≡ submit_at self.old.is_open (by_policies (margins policies.now)) self.old sdu) }
    {
        if self.is_open {
            self.submit_open(sdu, policies)
        } else {
            self.hold(sdu)
        }
    }

    /// The SDUs that are held are numbered and sent; where there is no room they stay held.
    fn send_held(&mut self, policies: &Policies) -> Result<Seq<(LinkId, Flight)>, Memory>
        ensures { IfOk result (λ sends. (self.new, sends) ≡ with_numbers (by_policies (margins policies.now)) self.old (give_numbers self.old.entity.tx)) }
    {
        match self.entity.give_numbers() {
            Ok(given) => self.send_counts(policies, given.as_slice()),
            Err(TxErr::Memory) => Err(Memory),
            Err(TxErr::Exhausted) => Ok(Seq::new(self.alloc)),
            Err(TxErr::Full { .. }) => Ok(Seq::new(self.alloc)),
        }
    }

    /// It opens: it sends all that is kept, and then numbers and sends what is held.
    fn opens(&mut self, policies: &Policies) -> Result<Seq<(LinkId, Flight)>, Memory>
        ensures { IfOk result (λ sends. (self.new, sends) ≡ opens (by_policies (margins policies.now)) self.old) }
    {
        self.is_open = true;
        let kept = self.send_kept(policies)?;
        let held = self.send_held(policies)?;
        joined(kept, held)
    }

    /// It opens, if it is told to.
    pub(crate) fn open_if(
        &mut self,
        is_told: bool,
        policies: &Policies,
    ) -> Result<Seq<(LinkId, Flight)>, Memory>
        ensures { IfOk result (λ sends. (self.new, sends) ≡ open_if is_told (by_policies (margins policies.now)) self.old) }
    {
        if is_told {
            self.opens(policies)
        } else {
            Ok(Seq::new(self.alloc))
        }
    }

    /// The reconfiguration is complete: a closed anchor opens (TS 37.340, 10.2 to 10.5: SN RECONFIGURATION COMPLETE).
    pub(crate) fn unlock(&mut self, policies: &Policies) -> Result<Seq<(LinkId, Flight)>, Memory>
        ensures { IfOk result (λ sends. (self.new, sends) ≡ open_if (not self.old.is_open) (by_policies (margins policies.now)) self.old) }
    {
        self.open_if(!self.is_open, policies)
    }

    /// PDCP data recovery is asked for: an open anchor sends all that is kept.
    pub(crate) fn recover(&mut self, policies: &Policies) -> Result<Seq<(LinkId, Flight)>, Memory>
        ensures { IfOk result (λ sends. (self.new, sends) ≡ recover_at self.old.is_open (by_policies (margins policies.now)) self.old) }
    {
        if self.is_open {
            self.send_kept(policies)
        } else {
            Ok(Seq::new(self.alloc))
        }
    }

    /// The SCG leg failed (TS 37.340, 7.7): it marks the leg, and recovers if it is open.
    pub(crate) fn fail_scg(&mut self, policies: &Policies) -> Result<Seq<(LinkId, Flight)>, Memory>
        ensures { IfOk result (λ sends. (self.new, sends) ≡ recover_at self.old.is_open (by_policies (margins policies.now)) (record self.old { entity = with_failure self.old.entity })) }
    {
        self.entity.fail_scg();
        self.recover(policies)
    }

    /// A status report is asked for: an open anchor sends one.
    pub(crate) fn report(&mut self, policies: &Policies) -> Result<Seq<(LinkId, Flight)>, Memory>
        ensures { IfOk result (λ sends. (self.new, sends) ≡ report_at self.old.is_open (by_policies (margins policies.now)) self.old) }
    {
        if self.is_open {
            self.send_report(policies)
        } else {
            Ok(Seq::new(self.alloc))
        }
    }

    /// The anchor in a new generation at the same node: closed, with the same entity, the new key, and legs and tunnel anew
    /// (TS 37.340, 10.3).
    pub(crate) fn renew(&mut self, setup: Setup)
        requires { setup.n ≡ self.old.entity.setup.n }
        ensures { self.new ≡ renew self.old setup }
    {
        self.is_open = false;
        self.tunnel = HostTunnel::new(self.alloc, setup.n());
        self.entity.renew(setup);
    }
}
