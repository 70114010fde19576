//! One send: a PDU goes on the legs of its route (TS 38.323, 5.2.1 and 5.11.1).

ghost use Rattle.std.specs.Prelude.{◌≡◌, ◌≤◌, ◌++◌, length, IfOk, OnOk};
ghost use Rattle.node_rules.specs.Choices.{by_policies};
ghost use Rattle.node_rules.specs.Sending.{put_by, put_on, send_one};
ghost use Rattle.split_leg.specs.Legs.{is_repeat};
ghost use Rattle.split_leg.specs.Stored.{margins};

use dc_base::{Cell, Memory, Octets, Seq, Tag};
use node_rules::OnLeg;
use split_leg::{Legs, Policies, Route};

/// Puts a PDU on a leg, under the next number there. A leg carries far fewer than 2^32 PDUs in a generation; of one more it
/// says `Memory`.
fn put_on(legs: &mut Legs, cell: Cell, tag: Tag, pdu: Octets) -> Result<OnLeg, Memory>
    requires { length pdu ≤ 65535 }
    ensures { IfOk result (λ put. (legs.new, put) ≡ put_on cell (is_repeat legs.old tag) (tag, pdu) legs.old) }
{
    if legs.next_num(cell) == u32::MAX {
        return Err(Memory);
    }
    let sent = legs.sent(cell, tag.get(), pdu.len())?;
    Ok(OnLeg {
        cell,
        num: sent.num,
        repeat: sent.repeat,
        pdu: (tag, pdu),
    })
}

/// Puts a PDU on the legs of its route, of which the last send has ended; what was put comes behind the others.
fn put_by(
    legs: &mut Legs,
    route: Route,
    tag: Tag,
    pdu: Octets,
    put: &mut Seq<OnLeg>,
) -> Result<(), Memory>
    requires octets { length pdu ≤ 65535 }
    requires ended { legs.old.mcg.before ≡ length legs.old.mcg.pdus }
    ensures legs { OnOk result (legs.new ≡ (put_by route (is_repeat legs.old tag) (tag, pdu) legs.old).0) }
    ensures put { OnOk result (put.new ≡ put.old ++ (put_by route (is_repeat legs.old tag) (tag, pdu) legs.old).1) }
{
    match route {
        Route::None => Ok(()),
        Route::One(cell) => put.push(put_on(legs, cell, tag, pdu)?),
        Route::Both => {
            put.push(put_on(legs, Cell::Mcg, tag, pdu.copy()?)?)?;
            put.push(put_on(legs, Cell::Scg, tag, pdu)?)
        }
    }
}

/// One send of a PDU; what was put comes behind the others.
pub(crate) fn send_one(
    legs: &mut Legs,
    policies: &Policies,
    tag: Tag,
    pdu: Octets,
    put: &mut Seq<OnLeg>,
) -> Result<(), Memory>
    requires { length pdu ≤ 65535 }
    ensures legs { OnOk result (legs.new ≡ (send_one (by_policies (margins policies.now)) (tag, pdu) legs.old).0) }
    ensures put { OnOk result (put.new ≡ put.old ++ (send_one (by_policies (margins policies.now)) (tag, pdu) legs.old).1) }
{
    let route = legs.route(policies, tag.get().is_some());
    legs.begin_send();
    put_by(legs, route, tag, pdu, put)
}
