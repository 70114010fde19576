//! Whether a record carries the plan that was drawn with its generation.

ghost use Rattle.std.specs.Prelude.{◌≡◌};
ghost use Rattle.dc_base.specs.Count.{bits};
ghost use Rattle.dc_base.specs.declared.events.Line.TheVariants as lines;
ghost use Rattle.dc_base.specs.declared.nodes.LinkId.{LinkId};
ghost use Rattle.claims.specs.Planned.{is_drawn, is_planned, plan_in};
ghost use Rattle.claims.specs.Sameness.{are_same_items, are_same_nodes, is_none_or, is_same_item, is_same_plan};

use crate::answers::shape_number;
use crate::rows::is_same_key;
use crate::state::State;
use dc_base::{Flight, Item, Line, Node, Plan, Rec, SnLen};

impl State {
    /// Whether a line carries the plan that was drawn with its generation, if it carries one.
    pub fn is_planned(&self, line: &Line) -> bool
        ensures { result ≡ is_planned self.now line.now }
    {
        match line {
            Line::Send(_, flight) => self.is_planned_flight(flight),
            Line::Note(_) => true,
            Line::Event(_) => true,
            Line::Answer(_) => true,
        }
    }

    /// Whether a flight does.
    fn is_planned_flight(&self, flight: &Flight) -> bool
        ensures { (l : LinkId) → result ≡ is_planned self.now (lines.Send l flight.now) }
    {
        match flight {
            Flight::Ctl(rec) => self.is_planned_record(rec),
            _ => true,
        }
    }

    /// Whether a record does.
    fn is_planned_record(&self, rec: &Rec) -> bool
        ensures { result ≡ is_none_or (is_drawn self.now) (plan_in rec.now) }
    {
        match rec {
            Rec::Reconf { plan, .. } => self.is_drawn(plan),
            Rec::Addreq { plan, .. } => self.is_drawn(plan),
            Rec::Modreq { plan, .. } => self.is_drawn(plan),
            Rec::Relreq { plan } => self.is_drawn(plan),
            Rec::Chgcnf { plan } => self.is_drawn(plan),
            Rec::Relcnf { plan } => self.is_drawn(plan),
            _ => true,
        }
    }

    /// Whether a plan was drawn; that of generation 0 is empty.
    fn is_drawn(&self, plan: &Plan) -> bool
        ensures { result ≡ is_drawn self.now plan.now }
    {
        if plan.g == 0 {
            plan.sec.is_none() && plan.items.len() <= 0
        } else {
            match self.plan(plan.g) {
                None => false,
                Some(drawn) => is_same_plan(plan, drawn),
            }
        }
    }
}

/// Whether two plans are the same.
fn is_same_plan(one: &Plan, other: &Plan) -> bool
    ensures { result ≡ is_same_plan one.now other.now }
{
    one.g == other.g
        && are_same_nodes(one.sec, other.sec)
        && are_same_items(one.items.as_slice(), other.items.as_slice())
}

/// Whether two items of plans are the same.
fn is_same_item(one: &Item, other: &Item) -> bool
    ensures { result ≡ is_same_item one.now other.now }
{
    match (one, other) {
        (
            Item::Set {
                id,
                n,
                first,
                shape,
                threshold,
                policy,
                key,
                old,
            },
            Item::Set {
                id: other_id,
                n: other_n,
                first: other_first,
                shape: other_shape,
                threshold: other_threshold,
                policy: other_policy,
                key: other_key,
                old: other_old,
            },
        ) => {
            *id == *other_id
                && bits(*n) == bits(*other_n)
                && *first == *other_first
                && shape_number(*shape) == shape_number(*other_shape)
                && *threshold == *other_threshold
                && *policy == *other_policy
                && is_same_key(key, other_key)
                && are_same_nodes(*old, *other_old)
        }
        (Item::Unset { id }, Item::Unset { id: other_id }) => *id == *other_id,
        (Item::Set { .. }, Item::Unset { .. }) => false,
        (Item::Unset { .. }, Item::Set { .. }) => false,
    }
}

/// The same node, or none on both sides.
fn are_same_nodes(one: Option<Node>, other: Option<Node>) -> bool
    ensures { result ≡ are_same_nodes one other }
{
    match (one, other) {
        (None, None) => true,
        (Some(one), Some(other)) => one.number() == other.number(),
        (None, Some(_)) => false,
        (Some(_), None) => false,
    }
}

/// How many bits a sequence number has.
fn bits(n: SnLen) -> u8
    ensures { result ≡ bits n }
{
    match n {
        SnLen::S12 => 12,
        SnLen::S18 => 18,
    }
}

/// The same items in the same order.
fn are_same_items(one: &[Item], other: &[Item]) -> bool
    ensures { result ≡ are_same_items one.now other.now }
{
    if one.len() != other.len() {
        return false;
    }
    for place in 0..one.len() {
        if !is_same_item(&one[place], &other[place]) {
            return false;
        }
    }
    true
}
