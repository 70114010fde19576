//! An anchor that waits for SN STATUS TRANSFER and for all that the old anchor forwards.

ghost use Rattle.std.specs.Prelude.{◌≡◌, ◌++◌, ◌∷◌, [], false, true, IfOk, OnOk, None};
ghost use Rattle.forward.specs.Forwarded.{nothing_came};
ghost use Rattle.forward.specs.Reading.{said_load};
ghost use Rattle.node_rules.specs.Adopting.{settled, with_load};
ghost use Rattle.node_rules.specs.Anchor.{active_anchor};
ghost use Rattle.node_rules.specs.Choices.{by_policies};
ghost use Rattle.node_rules.specs.Setup.{with_failed_scg};
ghost use Rattle.pdcp_pdu.specs.DataPdu.{IsPayload};
ghost use Rattle.pdcp_pdu.specs.Pdu.{decoded};
ghost use Rattle.split_leg.specs.Stored.{margins};
ghost use Rattle.anchor.specs.Ready.{is_ready};
ghost use Rattle.anchor.specs.Receiving.{kept_pdu, status_noted};

use crate::active::ActiveAnchor;
use crate::takeover::{adopted, all_of, taken_over};
use dc_base::{Dir, Memory, Octets, Seq, StatusTransfer};
use forward::{ForwardIn, Load};
use node_rules::AnchorOut;
use pdcp_entity::Setup;
use pdcp_pdu::decode;
use split_leg::Policies;
use std::alloc::Global;
use std::marker::Model;

/// An anchor that waits, and keeps what comes until then.
#[derive(Drop)]
pub(crate) struct WaitingAnchor {
    alloc: Global,
    setup: Setup,
    /// That the reconfiguration is complete.
    is_told: bool,
    transfer: Option<StatusTransfer>,
    down: ForwardIn,
    up: ForwardIn,
    /// The uplink PDUs of its generation, in the order in which they came.
    pdus: Seq<Octets>,
    /// The SDUs from the core, in their order.
    fresh: Seq<Octets>,
}

impl Model for WaitingAnchor {
    ghost use Rattle.std.specs.Prelude.{All};
    ghost use Rattle.node_rules.specs.Anchor.{Waiting};
    ghost use Rattle.pdcp_pdu.specs.DataPdu.{IsPayload};
    ghost use Rattle.anchor.specs.Readable.{readable};

    ghost Value = { Waiting };

    ghost view = { λ a. record { setup = a.setup; is_told = a.is_told; transfer = a.transfer; down = a.down; up = a.up; pdus = readable a.setup.n a.pdus; fresh = a.fresh } };

    // What came from the core was submitted.
    ghost invariant = { λ a. All IsPayload a.fresh };
}

impl WaitingAnchor {
    /// An anchor to which nothing came.
    pub(crate) fn new(alloc: Global, setup: Setup) -> WaitingAnchor
        ensures { result ≡ record { setup = setup; is_told = false; transfer = None; down = nothing_came; up = nothing_came; pdus = []; fresh = [] } }
    {
        WaitingAnchor {
            alloc,
            setup,
            is_told: false,
            transfer: None,
            down: ForwardIn::new(alloc),
            up: ForwardIn::new(alloc),
            pdus: Seq::new(alloc),
            fresh: Seq::new(alloc),
        }
    }

    /// What is set up in this generation.
    pub(crate) fn setup(&self) -> &Setup
        ensures { result.now ≡ self.now.setup }
    {
        &self.setup
    }

    /// An SDU of 1 to 9000 octets from the core is kept.
    pub(crate) fn submit(&mut self, sdu: Octets) -> Result<(), Memory>
        requires { IsPayload sdu }
        ensures { OnOk result (self.new ≡ record self.old { fresh = self.old.fresh ++ sdu ∷ [] }) }
    {
        self.fresh.push(sdu)
    }

    /// Octets come: an uplink PDU is kept, and the answer says whether they are one.
    pub(crate) fn keep(&mut self, pdu: &[u8]) -> Result<bool, Memory>
        ensures { IfOk result (λ kept. (self.new, kept) ≡ kept_pdu self.old (decoded self.old.setup.n pdu.now)) }
    {
        match decode(self.setup.n(), pdu) {
            Err(_) => Ok(false),
            Ok(_) => {
                let pdu = Octets::from_slice(self.alloc, pdu)?;
                self.pdus.push(pdu)?;
                Ok(true)
            }
        }
    }

    /// The reconfiguration is complete.
    pub(crate) fn tell(&mut self)
        ensures { self.new ≡ record self.old { is_told = true } }
    {
        self.is_told = true;
    }

    /// The SCG leg failed (TS 37.340, 7.7).
    pub(crate) fn fail_scg(&mut self)
        ensures { self.new ≡ record self.old { setup = with_failed_scg self.old.setup } }
    {
        self.setup.fail_scg();
    }

    /// The first SN STATUS TRANSFER of the bearer and the generation counts: whether this is it.
    pub(crate) fn note_status(&mut self, status: &StatusTransfer) -> Result<bool, Memory>
        ensures { IfOk result (λ noted. (self.new, noted) ≡ status_noted self.old status.now) }
    {
        if !self.setup.is_of(status.id, status.g) || self.transfer.is_some() {
            return Ok(false);
        }
        self.transfer = Some(status.copy()?);
        Ok(true)
    }

    /// What came out of the forwarding tunnel of a direction is taken.
    pub(crate) fn take_load(&mut self, dir: Dir, load: &Load<'_>) -> Result<(), Memory>
        ensures { OnOk result (self.new ≡ with_load self.old dir (said_load load.now)) }
    {
        match dir {
            Dir::Dl => self.down.take(load),
            Dir::Ul => self.up.take(load),
        }
    }

    /// Whether all that it waits for is there.
    pub(crate) fn is_ready(&self) -> bool
        ensures { result ≡ is_ready self.now }
    {
        self.transfer.is_some() && self.down.is_done() && self.up.is_done()
    }

    /// Once all is there, it takes the bearer over, then the uplink PDUs that it kept, and opens if it was told to.
    pub(crate) fn adopt(self, policies: &Policies) -> Result<(ActiveAnchor, AnchorOut), Memory>
        ensures { IfOk result (λ done. (active_anchor done.0, done.1) ≡ settled (by_policies (margins policies.now)) self) }
    {
        let WaitingAnchor {
            alloc,
            setup,
            is_told,
            transfer,
            down,
            up,
            pdus,
            fresh,
        } = self;
        let Some(status) = transfer else {
            return Err(Memory);
        };
        let down = all_of(down)?;
        let up = all_of(up)?;
        let entity = taken_over(alloc, setup, &status, down, up, fresh)?;
        let done = adopted(alloc, entity, pdus, is_told, policies)?;
        Ok(done)
    }
}
