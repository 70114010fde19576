//! The records that a secondary node takes from the master.

ghost use Rattle.std.specs.Prelude.{◌≡◌, not, IfOk};
ghost use Rattle.std.specs.List.{list_any};
ghost use Rattle.dc_base.specs.Count.{bits};
ghost use Rattle.std.specs.Prelude.{◌==◌};
ghost use Rattle.node_rules.specs.Choices.{by_policies};
ghost use Rattle.node_rules.specs.SecondStep.{is_fit, is_fit_plan, is_fit_recovery, is_like, is_unfit, key_in, plan_in, recovery_in, second_record};
ghost use Rattle.node_rules.specs.Secondary.{active_at};
ghost use Rattle.split_leg.specs.Stored.{margins};

use super::Second;
use dc_base::{DrbId, Item, Memory, Rec, SnLen};
use node_parts::{is_same_node, quiet};
use node_rules::Effects;
use split_leg::Policies;
use xn_procs::ProcErr;

impl Second {
    /// A record comes from the master. One that does not fit the anchors, or has no place in the state, is taken without effect.
    pub(super) fn take_record(
        &mut self,
        record_come: &Rec,
        policies: &Policies,
    ) -> Result<Effects, Memory>
        ensures { IfOk result (λ out. (self.new, out) ≡ second_record (by_policies (margins policies.now)) self.old record_come.now (is_fit self.old record_come.now)) }
    {
        if !self.is_fit(record_come)? {
            return Ok(quiet(self.alloc));
        }
        match self.proc.take(self.alloc, record_come) {
            Ok(acts) => self.does(acts, key_in(record_come), policies),
            Err(ProcErr::Refused(_)) => Ok(quiet(self.alloc)),
            Err(ProcErr::Unexpected(_)) => Ok(quiet(self.alloc)),
            Err(ProcErr::Memory) => Err(Memory),
        }
    }

    // Whether a record fits the anchors of the node.
    fn is_fit(&self, record_come: &Rec) -> Result<bool, Memory>
        ensures { IfOk result (λ fit. fit ≡ is_fit self.now record_come.now) }
    {
        let fits = self.is_fit_plan(record_come)?;
        Ok(fits && self.is_fit_recovery(record_come))
    }

    // Whether the plan of a record fits, where it has one.
    fn is_fit_plan(&self, record_come: &Rec) -> Result<bool, Memory>
        ensures { IfOk result (λ fit. fit ≡ is_fit_plan self.now (plan_in record_come.now)) }
    {
        match record_come {
            Rec::Addreq { plan, .. } => self.are_fit(plan.items.as_slice()),
            Rec::Modreq { plan, .. } => self.are_fit(plan.items.as_slice()),
            Rec::Relreq { plan } => self.are_fit(plan.items.as_slice()),
            Rec::Chgcnf { plan } => self.are_fit(plan.items.as_slice()),
            Rec::Relcnf { plan } => self.are_fit(plan.items.as_slice()),
            _ => Ok(true),
        }
    }

    // Whether these items of a plan fit.
    fn are_fit(&self, items: &[Item]) -> Result<bool, Memory>
        ensures { IfOk result (λ fit. fit ≡ not (list_any (is_unfit self.now) items.now)) }
    {
        for item in items {
            if self.is_unfit(item)? {
                return Ok(false);
            }
        }
        Ok(true)
    }

    // Whether an item has its old anchor at the node, which has no such active one.
    fn is_unfit(&self, item: &Item) -> Result<bool, Memory>
        ensures { IfOk result (λ unfit. unfit ≡ is_unfit self.now item.now) }
    {
        match item {
            Item::Set {
                id,
                n,
                first,
                old: Some(old),
                ..
            } => {
                let is_here = is_same_node(*old, self.proc.me());
                let is_like = self.is_like(*id, *n, *first)?;
                Ok(is_here && !is_like)
            }
            _ => Ok(false),
        }
    }

    // Whether the active anchor is of a bearer of this SN length and first COUNT.
    fn is_like(&self, id: DrbId, n: SnLen, first: u32) -> Result<bool, Memory>
        ensures { IfOk result (λ like. like ≡ is_like n first (active_at self.now id)) }
    {
        let Some(fed) = self.anchors.get(&id) else {
            return Ok(false);
        };
        if fed.is_waiting() {
            return Ok(false);
        }
        let setup = fed.setup()?;
        Ok(is_same_length(setup.n(), n) && setup.first() == first)
    }

    // Whether the bearer that a record orders to recover is active at the node, where it orders one.
    fn is_fit_recovery(&self, record_come: &Rec) -> bool
        ensures { result ≡ is_fit_recovery self.now (recovery_in record_come.now) }
    {
        match record_come {
            Rec::Recov { id } => self.has_active(*id),
            _ => true,
        }
    }
}

// The octets of the K_SN that a record carries.
fn key_in(record_come: &Rec) -> &[u8]
    ensures { result.now ≡ key_in record_come.now }
{
    match record_come {
        Rec::Addreq { key, .. } => key,
        Rec::Modreq { key, .. } => key,
        _ => &[],
    }
}

// Whether both lengths of sequence numbers are the same.
fn is_same_length(a: SnLen, b: SnLen) -> bool
    ensures { result ≡ (bits a == bits b) }
{
    match (a, b) {
        (SnLen::S12, SnLen::S12) => true,
        (SnLen::S12, SnLen::S18) => false,
        (SnLen::S18, SnLen::S12) => false,
        (SnLen::S18, SnLen::S18) => true,
    }
}
