//! What is submitted in downlink: it comes to the core, and goes to the anchor of its bearer (TS 37.340, 8.2).

ghost use Rattle.std.specs.Prelude.{◌≡◌, IfOk, OnOk};
ghost use Rattle.dc_base.specs.Links.{link};
ghost use Rattle.dc_base.specs.declared.flights.Flight.TheVariants as flights;
ghost use Rattle.dc_base.specs.declared.nodes.Class.TheVariants.{Feed};
ghost use Rattle.dc_base.specs.declared.nodes.Node.TheVariants.{M};
ghost use Rattle.node_rules.specs.Acts.{first_refusal};
ghost use Rattle.node_rules.specs.Choices.{by_policies};
ghost use Rattle.node_rules.specs.Effects.{sent};
ghost use Rattle.node_rules.specs.Held.{held};
ghost use Rattle.node_rules.specs.MasterStep.{settled_row, submit_refusals, submitted, submitted_to, to_anchor_at, with_accepted};
ghost use Rattle.split_leg.specs.Stored.{margins};

use super::Master;
use crate::steps::AnchorStep;
use dc_base::{Class, DrbId, Flight, Gen, LinkId, Memory, Node, Octets, Refusal, window as size};
use node_parts::{accepted, quiet, sent, turned_down};
use node_rules::{Effects, Outcome, Row, Window};
use split_leg::Policies;
use std::alloc::Global;

impl Master {
    /// A payload is submitted. It is refused where the bearer is not established or a command drops it, where the window is
    /// full, and where the COUNTs are used up. A payload has 1 to 9000 octets; of another it says `Memory`.
    pub(super) fn submit(
        &mut self,
        id: DrbId,
        sdu: Octets,
        policies: &Policies,
    ) -> Result<Outcome, Memory>
        ensures { IfOk result (λ out. (self.new, out) ≡ submitted (by_policies (margins policies.now)) self.old id sdu (settled_row self.old id)) }
    {
        match self.settled_row(id) {
            Some(row) => self.submit_to(id, sdu, row, policies),
            None => Ok(turned_down(self.alloc, Refusal::NoBearer)),
        }
    }

    // The bearer, unless a command is setting it up or dropping it.
    fn settled_row(&self, id: DrbId) -> Option<Row>
        ensures { result ≡ settled_row self.now id }
    {
        if self.proc.is_unsettled(id) {
            None
        } else {
            self.proc.table().row(id)
        }
    }

    // To a bearer of the table.
    fn submit_to(
        &mut self,
        id: DrbId,
        sdu: Octets,
        row: Row,
        policies: &Policies,
    ) -> Result<Outcome, Memory>
        ensures { IfOk result (λ out. (self.new, out) ≡ submitted_to (by_policies (margins policies.now)) self.old id sdu row (held id self.old.windows)) }
    {
        let Some(window) = self.window(id) else {
            return Ok(turned_down(self.alloc, Refusal::NoBearer));
        };
        if let Some(why) = submit_refusal(&row, window) {
            return Ok(turned_down(self.alloc, why));
        }
        self.count_one(id, window)?;
        let effects = self.give_to_anchor(id, row.g, sdu, row.anchor, policies)?;
        Ok(accepted(effects))
    }

    // One more submission is accepted. Their number stays below 2^32; of more it says `Memory`.
    fn count_one(&mut self, id: DrbId, window: Window) -> Result<(), Memory>
        ensures { OnOk result (self.new ≡ with_accepted self.old id window) }
    {
        let Some(accepted) = window.accepted.checked_add(1) else {
            return Err(Memory);
        };
        let told = window.told;
        self.set_window(id, Some(Window { accepted, told }))
    }

    // A submission goes to the anchor: at the master at once, else over the core's line, with the generation of the bearer's path.
    fn give_to_anchor(
        &mut self,
        id: DrbId,
        g: Gen,
        sdu: Octets,
        anchor: Node,
        policies: &Policies,
    ) -> Result<Effects, Memory>
        ensures { IfOk result (λ out. (self.new, out) ≡ to_anchor_at (by_policies (margins policies.now)) self.old id g sdu anchor) }
    {
        match anchor {
            Node::M => self.anchor_does(id, AnchorStep::Submit(sdu), policies),
            Node::A => over_line(self.alloc, Node::A, id, g, sdu),
            Node::B => over_line(self.alloc, Node::B, id, g, sdu),
            Node::T => Ok(quiet(self.alloc)),
        }
    }
}

// An SDU goes over the core's line to a secondary anchor.
fn over_line(alloc: Global, to: Node, id: DrbId, g: Gen, sdu: Octets) -> Result<Effects, Memory>
    ensures { IfOk result (λ made. made ≡ sent (link M to Feed) (flights.Sdu id g sdu)) }
{
    let link = LinkId::new(Node::M, to, Class::Feed);
    sent(alloc, link, Flight::Sdu { id, g, sdu })
}

// Why a submission is refused, if it is: the window is full, or the COUNTs are used up.
fn submit_refusal(row: &Row, window: Window) -> Option<Refusal>
    ensures { result ≡ first_refusal (submit_refusals row.now window) }
{
    let next = row.first as u64 + window.accepted as u64;
    let waiting = next.saturating_sub(window.told as u64);
    if size(row.n) as u64 <= waiting {
        Some(Refusal::Full)
    } else if next == u32::MAX as u64 {
        Some(Refusal::Exhausted)
    } else {
        None
    }
}
