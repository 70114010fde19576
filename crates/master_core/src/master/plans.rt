//! How the master carries a plan out (TS 37.340, 10.2 to 10.5).

ghost use Rattle.std.specs.Prelude.{◌≡◌, if◌then◌else◌, IfOk, OnOk, option_map};
ghost use Rattle.dc_base.specs.Links.{link};
ghost use Rattle.dc_base.specs.Records.{item_id};
ghost use Rattle.dc_base.specs.declared.flights.Flight.TheVariants as flights;
ghost use Rattle.dc_base.specs.declared.nodes.Class.TheVariants.{Feed};
ghost use Rattle.dc_base.specs.declared.nodes.Node.TheVariants.{M};
ghost use Rattle.node_rules.specs.Anchor.{fresh, waiting};
ghost use Rattle.node_rules.specs.Effects.{in_turn, quiet, sent};
ghost use Rattle.node_rules.specs.Held.{held, holding};
ghost use Rattle.node_rules.specs.MasterPlan.{carries_item, frozen_here, line_end, line_ends, master_part, master_setup, owned, prepares_item, renewed_here, window_after, with_host_and_window};

use super::Master;
use anchor::{Anchor, FreezeOut};
use dc_base::{Class, DrbId, Flight, Gen, Item, LinkId, Memory, Node, Note, Plan, Rec};
use leg_host::LegHost;
use node_parts::{
    add, anchor_at, host_at, is_same_node, item_id, noted, part_at, quiet, sends_alone, sent, told,
};
use node_rules::{Effects, Part, Window};
use pdcp_entity::Setup;
use std::alloc::Global;

impl Master {
    /// A plan begins: for each bearer whose anchor comes to the master, an anchor waits there from now on. In no run does a plan
    /// name a root that was not noted, or come with a generation of 2^24 or more; of these it says `Memory`.
    pub(super) fn prepare(&mut self, plan: &Plan) -> Result<Effects, Memory>
        ensures { IfOk result (λ out. (self.new, out) ≡ in_turn (prepares_item plan.now) self.old plan.now.items) }
    {
        let mut effects = quiet(self.alloc);
        for item in plan.items.as_slice() {
            let done = self.prepare_item(item, plan)?;
            add(&mut effects, done)?;
        }
        Ok(effects)
    }

    // An item of a plan that begins.
    fn prepare_item(&mut self, item: &Item, plan: &Plan) -> Result<Effects, Memory>
        ensures { IfOk result (λ out. (self.new, out) ≡ prepares_item plan.now self.old item.now) }
    {
        match part_at(Node::M, plan.sec, item) {
            Part::Awaits => {
                let setup = self.setup(plan, item)?;
                self.wait(item_id(item), setup)?;
                Ok(quiet(self.alloc))
            }
            _ => Ok(quiet(self.alloc)),
        }
    }

    // A new anchor waits for its bearer.
    fn wait(&mut self, id: DrbId, setup: Option<Setup>) -> Result<(), Memory>
        ensures { OnOk result (self.new ≡ record self.old { anchors = holding id (option_map waiting setup) self.old.anchors }) }
    {
        let anchor = match setup {
            Some(setup) => Some(Anchor::waiting(self.alloc, setup)),
            None => None,
        };
        self.set_anchor(id, anchor)
    }

    /// A plan is carried out.
    pub(super) fn carry_out(&mut self, plan: &Plan) -> Result<Effects, Memory>
        ensures { IfOk result (λ out. (self.new, out) ≡ in_turn (carries_item plan.now) self.old plan.now.items) }
    {
        let mut effects = quiet(self.alloc);
        for item in plan.items.as_slice() {
            let done = self.carry_item(item, plan)?;
            add(&mut effects, done)?;
        }
        Ok(effects)
    }

    // An item is carried out: the core's line, the leg host and the window, and the master's part of it.
    fn carry_item(&mut self, item: &Item, plan: &Plan) -> Result<Effects, Memory>
        ensures { IfOk result (λ out. (self.new, out) ≡ carries_item plan.now self.old item.now) }
    {
        let mut effects = line_ends(self.alloc, plan.g, plan.sec, item)?;
        self.set_host_and_window(item, plan)?;
        let done = self.take_part(item, plan, part_at(Node::M, plan.sec, item))?;
        add(&mut effects, done)?;
        Ok(effects)
    }

    // The leg host and the window after an item.
    fn set_host_and_window(&mut self, item: &Item, plan: &Plan) -> Result<(), Memory>
        ensures { OnOk result (self.new ≡ with_host_and_window plan.now self.old item.now) }
    {
        let id = item_id(item);
        let window = window_after(item, self.window(id));
        self.set_host(id, host_at(self.alloc, Node::M, plan, item))?;
        self.set_window(id, window)
    }

    // The master hosts a leg of the bearer from now on, or none.
    fn set_host(&mut self, id: DrbId, host: Option<LegHost>) -> Result<(), Memory>
        ensures { OnOk result (self.new ≡ record self.old { hosts = holding id host self.old.hosts }) }
    {
        match host {
            Some(host) => {
                self.hosts.insert(id, host)?;
                Ok(())
            }
            None => {
                self.hosts.remove(&id);
                Ok(())
            }
        }
    }

    // The part of the master in an item; a waiting anchor was made before.
    fn take_part(&mut self, item: &Item, plan: &Plan, part: Part) -> Result<Effects, Memory>
        ensures { IfOk result (λ out. (self.new, out) ≡ master_part self.old plan.now item.now part) }
    {
        let id = item_id(item);
        match part {
            Part::Establishes => {
                let setup = self.setup(plan, item)?;
                self.begin(id, plan.g, setup)
            }
            Part::Renews => {
                let setup = self.setup(plan, item)?;
                self.renew(id, plan.g, setup)
            }
            Part::Awaits => Ok(quiet(self.alloc)),
            Part::HandsOver { to } => self.hand_over(id, plan.g, to),
            Part::Drops => {
                self.set_anchor(id, None)?;
                Ok(quiet(self.alloc))
            }
            Part::HasNoAnchor => Ok(quiet(self.alloc)),
        }
    }

    // What an item sets up at the master.
    fn setup(&self, plan: &Plan, item: &Item) -> Result<Option<Setup>, Memory>
        ensures { IfOk result (λ setup. setup ≡ master_setup self.now plan.now item.now) }
    {
        match item {
            Item::Set { key, .. } => {
                let octets = self.proc.table().octets(key)?;
                Setup::new(self.alloc, Node::M, plan, self.alg, &octets, item)
            }
            Item::Unset { .. } => Ok(None),
        }
    }

    // A new anchor begins, and is active in the generation of the plan.
    fn begin(&mut self, id: DrbId, g: Gen, setup: Option<Setup>) -> Result<Effects, Memory>
        ensures { IfOk result (λ out. (self.new, out) ≡ owned self.old id g (option_map fresh setup)) }
    {
        let anchor = match setup {
            Some(setup) => Some(Anchor::fresh(self.alloc, setup)),
            None => None,
        };
        self.set_anchor(id, anchor)?;
        let node = Node::M;
        noted(self.alloc, Note::Own { node, id, g })
    }

    // The anchor stays, in the new generation; a waiting one does nothing.
    fn renew(&mut self, id: DrbId, g: Gen, setup: Option<Setup>) -> Result<Effects, Memory>
        ensures { IfOk result (λ out. (self.new, out) ≡ renewed_here self.old id g setup (held id self.old.anchors)) }
    {
        let Some(setup) = setup else {
            return Ok(quiet(self.alloc));
        };
        if !self.has_active(id) {
            return Ok(quiet(self.alloc));
        }
        let Some(anchor) = self.anchors.get_mut(&id) else {
            return Err(Memory);
        };
        anchor.renew(setup)?;
        let node = Node::M;
        Ok(noted(self.alloc, Note::Own { node, id, g })?)
    }

    // The anchor is frozen, and tells and forwards to the new one at this node; a waiting one does nothing.
    fn hand_over(&mut self, id: DrbId, g: Gen, to: Node) -> Result<Effects, Memory>
        ensures { IfOk result (λ out. (self.new, out) ≡ frozen_here self.old id g to (held id self.old.anchors)) }
    {
        if !self.has_active(id) {
            return Ok(quiet(self.alloc));
        }
        let Some(anchor) = self.anchors.remove(&id) else {
            return Err(Memory);
        };
        let FreezeOut { status, sends, .. } = anchor.freeze(to, g, true)?;
        let node = Node::M;
        let mut effects = noted(self.alloc, Note::Give { node, id, g })?;
        let transfer = told(self.alloc, node, to, Rec::Snst { status })?;
        add(&mut effects, transfer)?;
        add(&mut effects, sends_alone(self.alloc, sends))?;
        Ok(effects)
    }
}

// The window of a bearer after an item: a new one begins with the first COUNT.
fn window_after(item: &Item, window: Option<Window>) -> Option<Window>
    ensures { result ≡ window_after item.now window }
{
    match item {
        Item::Set {
            first,
            old: None,
            ..
        } => Some(Window {
            accepted: 0,
            told: *first,
        }),
        Item::Set { old: Some(_), .. } => window,
        Item::Unset { .. } => None,
    }
}

// The core's line to a secondary anchor that an item moves away ends.
fn line_ends(alloc: Global, g: Gen, sec: Option<Node>, item: &Item) -> Result<Effects, Memory>
    ensures { IfOk result (λ made. made ≡ line_ends g sec item.now) }
{
    match item {
        Item::Set {
            id,
            shape,
            old: Some(old),
            ..
        } => line_end(alloc, g, *id, anchor_at(sec, *shape), *old),
        _ => Ok(quiet(alloc)),
    }
}

// Of a bearer that has its anchor at this node from now on, and had it at that one.
fn line_end(alloc: Global, g: Gen, id: DrbId, new: Node, old: Node) -> Result<Effects, Memory>
    ensures { IfOk result (λ made. made ≡ line_end g id new old) }
{
    match old {
        Node::A => line_end_unless(alloc, g, id, Node::A, is_same_node(new, Node::A)),
        Node::B => line_end_unless(alloc, g, id, Node::B, is_same_node(new, Node::B)),
        Node::M => Ok(quiet(alloc)),
        Node::T => Ok(quiet(alloc)),
    }
}

// The end of the line to a secondary anchor, unless the anchor stays there.
fn line_end_unless(
    alloc: Global,
    g: Gen,
    id: DrbId,
    old: Node,
    stays: bool,
) -> Result<Effects, Memory>
    ensures { IfOk result (λ made. made ≡ (if stays then quiet else sent (link M old Feed) (flights.End id g))) }
{
    if stays {
        return Ok(quiet(alloc));
    }
    let link = LinkId::new(Node::M, old, Class::Feed);
    sent(alloc, link, Flight::End { id, g })
}
