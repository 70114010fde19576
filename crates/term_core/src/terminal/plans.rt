//! Plans that the terminal takes (TS 38.331, 5.3.5).

ghost use Rattle.std.specs.Prelude.{◌≡◌, ◌==◌, not, IfOk, OnOk};
ghost use Rattle.std.specs.List.{list_any};
ghost use Rattle.dc_base.specs.Count.{bits};
ghost use Rattle.node_rules.specs.Choices.{by_policies};
ghost use Rattle.node_rules.specs.Effects.{after_effects, in_turn};
ghost use Rattle.node_rules.specs.Held.{held};
ghost use Rattle.node_rules.specs.Terminal.{is_bearer_like, is_takable, item_taken, plan_taken};
ghost use Rattle.split_leg.specs.Stored.{margins};

use super::Terminal;
use dc_base::{DrbId, Item, Memory, Node, Plan, Rec, SnLen};
use node_parts::{add, quiet, told};
use node_rules::Effects;
use split_leg::Policies;

impl Terminal {
    /// A plan comes with the octets of the current root key. It is answered before the uplink is recovered; one with an item
    /// that can not be taken does nothing.
    pub(crate) fn take_plan(
        &mut self,
        plan: &Plan,
        root: &[u8; 32],
        policies: &Policies,
    ) -> Result<Effects, Memory>
        ensures { IfOk result (λ out. (self.new, out) ≡ plan_taken (by_policies (margins policies.now)) root.now plan.now self.old (not (list_any (λ i. not (is_takable self.old i)) plan.now.items))) }
    {
        if self.is_blocked(plan.items.as_slice()) {
            return Ok(quiet(self.alloc));
        }
        let mut effects = told(self.alloc, Node::T, Node::M, Rec::Rcomp { g: plan.g })?;
        self.sec = plan.sec;
        self.take_items(plan.items.as_slice(), plan, root, policies, &mut effects)?;
        Ok(effects)
    }

    // These items of a plan are taken in turn; what comes of them is added.
    fn take_items(
        &mut self,
        items: &[Item],
        plan: &Plan,
        root: &[u8; 32],
        policies: &Policies,
        effects: &mut Effects,
    ) -> Result<(), Memory>
        ensures { OnOk result ((self.new, effects.new) ≡ after_effects effects.old (in_turn (item_taken (by_policies (margins policies.now)) root.now plan.now) self.old items.now)) }
    {
        for item in items {
            let done = self.take_item(item, plan, root, policies)?;
            add(effects, done)?;
        }
        Ok(())
    }

    // Whether some item can not be taken.
    fn is_blocked(&self, items: &[Item]) -> bool
        ensures { result ≡ list_any (λ i. not (is_takable self.now i)) items.now }
    {
        items.iter().any(|item| !self.is_takable(item))
    }

    // Whether an item can be taken: a new bearer is not there, and one that is changed or dropped is.
    fn is_takable(&self, item: &Item) -> bool
        ensures { result ≡ is_takable self.now item.now }
    {
        match *item {
            Item::Set { id, old: None, .. } => !self.has(id),
            Item::Set { id, n, first, .. } => self.has_like(id, n, first),
            Item::Unset { id } => self.has(id),
        }
    }

    // Whether the bearer is there with this SN length and first COUNT.
    fn has_like(&self, id: DrbId, n: SnLen, first: u32) -> bool
        ensures { result ≡ is_bearer_like n first (held id self.now.halves) }
    {
        match self.halves.get(&id) {
            Some(half) => is_same_length(half.setup().n(), n) && half.setup().first() == first,
            None => false,
        }
    }
}

// Whether both lengths of sequence numbers are the same.
fn is_same_length(a: SnLen, b: SnLen) -> bool
    ensures { result ≡ (bits a == bits b) }
{
    match (a, b) {
        (SnLen::S12, SnLen::S12) => true,
        (SnLen::S12, SnLen::S18) => false,
        (SnLen::S18, SnLen::S12) => false,
        (SnLen::S18, SnLen::S18) => true,
    }
}
