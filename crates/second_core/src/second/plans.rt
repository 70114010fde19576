//! How a secondary node carries a plan out (TS 37.340, 10.2 to 10.5).

ghost use Rattle.std.specs.Prelude.{◌≡◌, IfOk, OnOk, option_map};
ghost use Rattle.dc_base.specs.Records.{item_id};
ghost use Rattle.node_rules.specs.Anchor.{fresh, waiting};
ghost use Rattle.node_rules.specs.Effects.{both, in_turn, noted, told};
ghost use Rattle.node_rules.specs.Held.{held, holding};
ghost use Rattle.node_rules.specs.Parts.{host_at};
ghost use Rattle.node_rules.specs.SecondPlan.{beginning, frozen_there, owned_there, renewed_there, second_item, second_part, with_fed};
ghost use Rattle.node_rules.specs.Setup.{setup_of};
ghost use Rattle.second_core.specs.Steps.{awaited_there};

use super::Second;
use crate::feed::{FedAnchor, FrozenAnchor};
use anchor::{Anchor, FreezeOut};
use dc_base::{DrbId, Gen, Item, Memory, Node, Note, Plan, Rec, StatusTransfer};
use leg_host::LegHost;
use node_parts::{add, host_at, item_id, noted, part_at, quiet, sends_alone, told};
use node_rules::{Effects, Part};
use pdcp_entity::Setup;

impl Second {
    /// A plan is carried out, with the octets of the K_SN. A record that sets a bearer up here has a K_SN of 32 octets; of one
    /// that has not it says `Memory`.
    pub(super) fn carry_out(&mut self, plan: &Plan, key: &[u8]) -> Result<Effects, Memory>
        ensures { IfOk result (λ out. (self.new, out) ≡ in_turn (second_item key.now plan.now) self.old plan.now.items) }
    {
        let mut effects = quiet(self.alloc);
        for item in plan.items.as_slice() {
            let done = self.take_item(item, plan, key)?;
            add(&mut effects, done)?;
        }
        Ok(effects)
    }

    // An item is carried out: the leg host, and the node's part of it.
    fn take_item(&mut self, item: &Item, plan: &Plan, key: &[u8]) -> Result<Effects, Memory>
        ensures { IfOk result (λ out. (self.new, out) ≡ second_item key.now plan.now self.old item.now) }
    {
        let me = self.proc.me();
        self.set_host(item_id(item), host_at(self.alloc, me, plan, item))?;
        self.take_part(item, plan, key, part_at(me, plan.sec, item))
    }

    // The node hosts a leg of the bearer from now on, or none.
    fn set_host(&mut self, id: DrbId, host: Option<LegHost>) -> Result<(), Memory>
        ensures { OnOk result (self.new ≡ record self.old { hosts = holding id host self.old.hosts }) }
    {
        match host {
            Some(host) => {
                self.hosts.insert(id, host)?;
                Ok(())
            }
            None => {
                self.hosts.remove(&id);
                Ok(())
            }
        }
    }

    // The part of the node in an item, with what the item sets up there.
    fn take_part(
        &mut self,
        item: &Item,
        plan: &Plan,
        key: &[u8],
        part: Part,
    ) -> Result<Effects, Memory>
        ensures { IfOk result (λ out. (self.new, out) ≡ second_part self.old plan.now (setup_of self.old.proc.me plan.now self.old.alg key.now item.now) (item_id item.now) part) }
    {
        let id = item_id(item);
        match part {
            Part::Establishes => {
                let setup = self.setup(plan, key, item)?;
                self.begin(id, plan.g, setup)
            }
            Part::Renews => {
                let setup = self.setup(plan, key, item)?;
                self.renew(id, plan.g, setup)
            }
            Part::Awaits => {
                let setup = self.setup(plan, key, item)?;
                self.wait(id, plan.g, setup)
            }
            Part::HandsOver { to } => self.hand_over(id, plan.g, to),
            Part::Drops => {
                self.set_anchor(id, None)?;
                Ok(quiet(self.alloc))
            }
            Part::HasNoAnchor => Ok(quiet(self.alloc)),
        }
    }

    // What an item sets up at the node.
    fn setup(&self, plan: &Plan, key: &[u8], item: &Item) -> Result<Option<Setup>, Memory>
        ensures { IfOk result (λ setup. setup ≡ setup_of self.now.proc.me plan.now self.now.alg key.now item.now) }
    {
        match <&[u8; 32]>::try_from(key) {
            Ok(octets) => Setup::new(self.alloc, self.proc.me(), plan, self.alg, octets, item),
            Err(_) => Err(Memory),
        }
    }

    // A new anchor begins, and is active in the generation of the plan.
    fn begin(&mut self, id: DrbId, g: Gen, setup: Option<Setup>) -> Result<Effects, Memory>
        ensures { IfOk result (λ out. (self.new, out) ≡ owned_there self.old id g (option_map (λ x. beginning g (fresh x)) setup)) }
    {
        let fed = match setup {
            Some(setup) => {
                let anchor = Anchor::fresh(self.alloc, setup);
                Some(FedAnchor::new(self.alloc, g, anchor))
            }
            None => None,
        };
        let node = self.proc.me();
        self.set_anchor(id, fed)?;
        Ok(noted(self.alloc, Note::Own { node, id, g })?)
    }

    // A new anchor waits for its bearer.
    fn wait(&mut self, id: DrbId, g: Gen, setup: Option<Setup>) -> Result<Effects, Memory>
        ensures { IfOk result (λ out. (self.new, out) ≡ awaited_there self.old id (option_map (λ x. beginning g (waiting x)) setup)) }
    {
        let fed = match setup {
            Some(setup) => {
                let anchor = Anchor::waiting(self.alloc, setup);
                Some(FedAnchor::new(self.alloc, g, anchor))
            }
            None => None,
        };
        self.set_anchor(id, fed)?;
        Ok(quiet(self.alloc))
    }

    // The anchor stays, in the new generation; a waiting one does nothing.
    fn renew(&mut self, id: DrbId, g: Gen, setup: Option<Setup>) -> Result<Effects, Memory>
        ensures { IfOk result (λ out. (self.new, out) ≡ renewed_there self.old id g setup (held id self.old.anchors)) }
    {
        let Some(setup) = setup else {
            return Ok(quiet(self.alloc));
        };
        if !self.has_active(id) {
            return Ok(quiet(self.alloc));
        }
        let node = self.proc.me();
        let Some(fed) = self.anchors.get_mut(&id) else {
            return Err(Memory);
        };
        fed.renew(setup)?;
        Ok(noted(self.alloc, Note::Own { node, id, g })?)
    }

    // The anchor is frozen, tells the master where it is, and forwards to the new one at this node; a waiting one does nothing.
    fn hand_over(&mut self, id: DrbId, g: Gen, to: Node) -> Result<Effects, Memory>
        ensures { IfOk result (λ out. (self.new, out) ≡ frozen_there self.old id g to (held id self.old.anchors)) }
    {
        if !self.has_active(id) {
            return Ok(quiet(self.alloc));
        }
        let Some(fed) = self.anchors.remove(&id) else {
            return Err(Memory);
        };
        let since = fed.since();
        let FreezeOut {
            status,
            sends,
            rest,
        } = fed.freeze(to, g)?;
        self.set_frozen(id, FrozenAnchor::of(self.alloc, since, rest))?;
        let mut effects = self.given(id, g, status)?;
        add(&mut effects, sends_alone(self.alloc, sends))?;
        Ok(effects)
    }

    // The note that the node gave the bearer up, and SN STATUS TRANSFER to the master (TS 38.423, 8.2.2).
    fn given(&self, id: DrbId, g: Gen, status: StatusTransfer) -> Result<Effects, Memory>
        ensures { IfOk result (λ made. made ≡ both (noted (Note.Give self.now.proc.me id g)) (told self.now.proc.me Node.M (Rec.Snst status))) }
    {
        let node = self.proc.me();
        let mut effects = noted(self.alloc, Note::Give { node, id, g })?;
        add(
            &mut effects,
            told(self.alloc, node, Node::M, Rec::Snst { status })?,
        )?;
        Ok(effects)
    }

    // What is left of a frozen anchor of the bearer from now on, or nothing.
    fn set_frozen(&mut self, id: DrbId, frozen: Option<FrozenAnchor>) -> Result<(), Memory>
        ensures { OnOk result (self.new ≡ record self.old { frozen = holding id frozen self.old.frozen }) }
    {
        match frozen {
            Some(frozen) => {
                self.frozen.insert(id, frozen)?;
                Ok(())
            }
            None => {
                self.frozen.remove(&id);
                Ok(())
            }
        }
    }
}
