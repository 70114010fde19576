//! The items of a plan, one after another.

ghost use Rattle.std.specs.Prelude.{◌≡◌, IfOk, OnOk};
ghost use Rattle.key_chain.specs.KeyNames.{octets_of_side};
ghost use Rattle.node_rules.specs.Choices.{by_policies};
ghost use Rattle.node_rules.specs.Held.{held};
ghost use Rattle.node_rules.specs.Terminal.{half_set, half_set_if, item_taken, with_half};
ghost use Rattle.node_rules.specs.TerminalHalf.{terminal_new};
ghost use Rattle.split_leg.specs.Stored.{margins};

use super::Terminal;
use crate::half::TerminalHalf;
use dc_base::{DrbId, Item, Memory, Node, Note, Plan, Side};
use key_chain::k_sn;
use node_parts::{add, noted, quiet, sends_alone};
use node_rules::Effects;
use pdcp_entity::Setup;
use split_leg::Policies;

impl Terminal {
    /// An item of a plan is taken.
    pub(crate) fn take_item(
        &mut self,
        item: &Item,
        plan: &Plan,
        root: &[u8; 32],
        policies: &Policies,
    ) -> Result<Effects, Memory>
        ensures { IfOk result (λ out. (self.new, out) ≡ item_taken (by_policies (margins policies.now)) root.now plan.now self.old item.now) }
    {
        match *item {
            Item::Set { id, key, .. } => {
                let key = key_octets(root, key.side);
                let setup = Setup::new(self.alloc, Node::T, plan, self.alg, &key, item)?;
                let later = self.set_if(id, setup, policies)?;
                let mut effects = noted(self.alloc, Note::Set { id, g: plan.g })?;
                add(&mut effects, later)?;
                Ok(effects)
            }
            Item::Unset { id } => {
                self.remove(id);
                noted(self.alloc, Note::Unset { id })
            }
        }
    }

    // What an item sets up, if it does.
    fn set_if(
        &mut self,
        id: DrbId,
        setup: Option<Setup>,
        policies: &Policies,
    ) -> Result<Effects, Memory>
        ensures { IfOk result (λ out. (self.new, out) ≡ half_set_if (by_policies (margins policies.now)) self.old id setup) }
    {
        match setup {
            Some(setup) => self.set(id, setup, policies),
            None => Ok(quiet(self.alloc)),
        }
    }

    // The bearer that a plan sets up, or the one that is there in the new generation, which recovers its uplink.
    fn set(&mut self, id: DrbId, setup: Setup, policies: &Policies) -> Result<Effects, Memory>
        ensures { IfOk result (λ out. (self.new, out) ≡ half_set (by_policies (margins policies.now)) self.old id setup (held id self.old.halves)) }
    {
        match self.halves.get_mut(&id) {
            Some(half) => {
                let sends = half.renew(setup, policies)?;
                Ok(sends_alone(self.alloc, sends))
            }
            None => {
                self.begin(id, setup)?;
                Ok(quiet(self.alloc))
            }
        }
    }

    // A new bearer.
    fn begin(&mut self, id: DrbId, setup: Setup) -> Result<(), Memory>
        ensures { OnOk result (self.new ≡ with_half self.old id (Some (terminal_new setup))) }
    {
        self.halves
            .insert(id, TerminalHalf::new(self.alloc, setup))?;
        Ok(())
    }

    // The bearer is there no more.
    fn remove(&mut self, id: DrbId)
        ensures { self.new ≡ with_half self.old id None }
    {
        self.halves.remove(&id);
    }
}

// The octets of the master's key or of a K_SN, of a root (TS 33.501, 6.10.3).
fn key_octets(root: &[u8; 32], side: Side) -> [u8; 32]
    ensures { result ≡ octets_of_side root.now side }
{
    match side {
        Side::Master => *root,
        Side::Second(counter) => k_sn(root, counter),
    }
}
