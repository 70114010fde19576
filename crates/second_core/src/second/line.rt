//! The core's lines to a secondary node: SDUs, and the ends of their paths (TS 37.340, 8.2).

ghost use Rattle.std.specs.Prelude.{◌≡◌, ℕ, Some, if◌then◌else◌, is_some, IfOk};
ghost use Rattle.node_rules.specs.Choices.{by_policies};
ghost use Rattle.node_rules.specs.Effects.{quiet};
ghost use Rattle.node_rules.specs.Feed.{Frozen};
ghost use Rattle.node_rules.specs.Held.{held, holding};
ghost use Rattle.node_rules.specs.SecondStep.{fed_ended, fed_took, frozen_ended, frozen_took, is_before_change, second_line};
ghost use Rattle.second_core.specs.Steps.{is_frozen_for};
ghost use Rattle.split_leg.specs.Stored.{margins};

use super::Second;
use crate::effects::second_effects;
use dc_base::{DrbId, Flight, Gen, Memory, Octets};
use node_parts::{quiet, sends_alone};
use node_rules::Effects;
use split_leg::Policies;

impl Second {
    /// A flight comes on the line from the core: SDUs and the end of a path do.
    pub(super) fn take_line(
        &mut self,
        flight: Flight,
        policies: &Policies,
    ) -> Result<Effects, Memory>
        ensures { IfOk result (λ out. (self.new, out) ≡ second_line (by_policies (margins policies.now)) self.old flight) }
    {
        match flight {
            Flight::Sdu { id, g, sdu } => self.take_sdu(id, g, sdu, policies),
            Flight::End { id, g } => self.take_end(id, g),
            _ => Ok(quiet(self.alloc)),
        }
    }

    // An SDU comes.
    fn take_sdu(
        &mut self,
        id: DrbId,
        g: Gen,
        sdu: Octets,
        policies: &Policies,
    ) -> Result<Effects, Memory>
        ensures { IfOk result (λ out. (self.new, out) ≡ (if is_before_change g (held id self.old.frozen) then frozen_took self.old id g sdu (held id self.old.frozen) else fed_took (by_policies (margins policies.now)) self.old id g sdu (held id self.old.anchors))) }
    {
        if self.is_before_change(id, g) {
            self.frozen_takes(id, g, &sdu)
        } else {
            self.fed_takes(id, g, sdu, policies)
        }
    }

    // The end of a path comes.
    fn take_end(&mut self, id: DrbId, g: Gen) -> Result<Effects, Memory>
        ensures { IfOk result (λ out. (self.new, out) ≡ (if is_some (held id self.old.frozen) then frozen_ended self.old id g (held id self.old.frozen) else fed_ended self.old id g (held id self.old.anchors))) }
    {
        if self.has_frozen(id) {
            self.frozen_ends(id, g)
        } else {
            self.fed_ends(id, g)
        }
    }

    // Whether something is left of a frozen anchor of the bearer.
    fn has_frozen(&self, id: DrbId) -> bool
        ensures { result ≡ is_some (held id self.now.frozen) }
    {
        match self.frozen.get(&id) {
            Some(_) => true,
            None => false,
        }
    }

    // Whether an SDU of this generation is one that a frozen anchor forwards.
    fn is_before_change(&self, id: DrbId, g: Gen) -> bool
        ensures { result ≡ is_before_change g (held id self.now.frozen) }
    {
        match self.frozen.get(&id) {
            Some(frozen) => g < frozen.generation(),
            None => false,
        }
    }

    // An SDU comes to a frozen anchor.
    fn frozen_takes(&mut self, id: DrbId, g: Gen, sdu: &Octets) -> Result<Effects, Memory>
        ensures { IfOk result (λ out. (self.new, out) ≡ frozen_took self.old id g sdu.now (held id self.old.frozen)) }
    {
        let Some(frozen) = self.frozen.get_mut(&id) else {
            return Ok(quiet(self.alloc));
        };
        let sends = frozen.sdu_in(g, sdu.as_slice())?;
        Ok(sends_alone(self.alloc, sends))
    }

    // Or to an anchor.
    fn fed_takes(
        &mut self,
        id: DrbId,
        g: Gen,
        sdu: Octets,
        policies: &Policies,
    ) -> Result<Effects, Memory>
        ensures { IfOk result (λ out. (self.new, out) ≡ fed_took (by_policies (margins policies.now)) self.old id g sdu (held id self.old.anchors)) }
    {
        let me = self.proc.me();
        let Some(fed) = self.anchors.get_mut(&id) else {
            return Ok(quiet(self.alloc));
        };
        let out = fed.sdu_in(g, sdu, policies)?;
        let generation = fed.generation();
        Ok(second_effects(self.alloc, me, id, generation, out)?)
    }

    // The line of a frozen anchor ends: for its change the tunnel is closed, and else nothing comes of it.
    fn frozen_ends(&mut self, id: DrbId, g: Gen) -> Result<Effects, Memory>
        ensures { IfOk result (λ out. (self.new, out) ≡ frozen_ended self.old id g (held id self.old.frozen)) }
    {
        if !self.is_frozen_for(id, g) {
            return Ok(self.unmoved());
        }
        let Some(frozen) = self.frozen.remove(&id) else {
            return Err(Memory);
        };
        let sends = frozen.end()?;
        Ok(sends_alone(self.alloc, sends))
    }

    // Whether what is left of a frozen anchor is for this change.
    fn is_frozen_for(&self, id: DrbId, g: Gen) -> bool
        ensures { result ≡ is_frozen_for g (held id self.now.frozen) }
    {
        match self.frozen.get(&id) {
            Some(frozen) => frozen.generation() == g,
            None => false,
        }
    }

    // Nothing comes of it, and what is left of a frozen anchor is put back as it was.
    fn unmoved(&self) -> Effects
        ensures value { result ≡ quiet }
        ensures same { (id : ℕ) (f : Frozen) → held id self.now.frozen ≡ Some f → record self.now { frozen = holding id (Some f) self.now.frozen } ≡ self.now }
    {
        // The length says that they stand in order.
        let _frozen = self.frozen.len();
        quiet(self.alloc)
    }

    // Or that of an anchor.
    fn fed_ends(&mut self, id: DrbId, g: Gen) -> Result<Effects, Memory>
        ensures { IfOk result (λ out. (self.new, out) ≡ fed_ended self.old id g (held id self.old.anchors)) }
    {
        let Some(fed) = self.anchors.get_mut(&id) else {
            return Ok(quiet(self.alloc));
        };
        fed.end_in(g);
        Ok(quiet(self.alloc))
    }
}
