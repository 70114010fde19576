//! How a bearer is taken over (TS 37.340, 10; TS 38.423, 8.2.2).

ghost use Rattle.std.specs.Prelude.{◌≡◌, ◌∷◌, ℕ, All, List, Some, IfOk};
ghost use Rattle.forward.specs.Forwarded.{whole};
ghost use Rattle.node_rules.specs.Adopting.{adopts};
ghost use Rattle.node_rules.specs.Anchor.{Waiting, active_anchor};
ghost use Rattle.node_rules.specs.Choices.{by_policies};
ghost use Rattle.node_rules.specs.Entity.{take_pdus};
ghost use Rattle.pdcp_pdu.specs.DataPdu.{IsPayload};
ghost use Rattle.split_leg.specs.Stored.{margins};
ghost use Rattle.anchor.specs.Readable.{handing, readable};
ghost use Rattle.anchor.specs.Takeover.{entity_of};

use crate::active::ActiveAnchor;
use crate::lists::joined;
use crate::low::risen;
use crate::taking::{Bounds, taken};
use dc_base::{Memory, Octets, Seq, StatusTransfer};
use forward::ForwardIn;
use node_rules::AnchorOut;
use pdcp_entity::{PdcpEntity, Setup};
use pdcp_rx::RxParts;
use pdcp_tx::TxParts;
use split_leg::Policies;
use std::alloc::Global;

/// The list that was forwarded in a tunnel, all of which came.
pub(crate) fn all_of(end: ForwardIn) -> Result<Seq<(Option<u32>, Octets)>, Memory>
    ensures { IfOk result (λ list. whole end ≡ Some list) }
{
    match end.into_list() {
        Ok(list) => Ok(list),
        Err(_) => Err(Memory),
    }
}

/// The entity that is taken over: both sides as the old anchor left them, and the SDUs that have no COUNT yet, before those
/// that came from the core.
pub(crate) fn taken_over(
    alloc: Global,
    setup: Setup,
    status: &StatusTransfer,
    down: Seq<(Option<u32>, Octets)>,
    up: Seq<(Option<u32>, Octets)>,
    fresh: Seq<Octets>,
) -> Result<PdcpEntity, Memory>
    requires { All IsPayload fresh }
    ensures { IfOk result (λ entity. entity ≡ entity_of setup fresh status.now down up) }
{
    let n = setup.n();
    let below = taken(alloc, n, Bounds::Numbered { dl: status.dl }, down)?;
    let above = taken(alloc, n, Bounds::Stored { ul: status.ul }, up)?;
    let held = joined(below.fresh, fresh)?;
    let tx = TxParts {
        n,
        next: status.dl,
        kept: below.counted,
        held,
    };
    let rx = RxParts {
        n,
        deliv: status.ul,
        stored: above.counted,
    };
    let entity = PdcpEntity::adopt(setup, tx, rx)?;
    Ok(entity)
}

/// Octets that were kept come; those that are no PDU do nothing. It answers all that was handed up.
fn take_one(
    entity: &mut PdcpEntity,
    octets: &[u8],
    ups: Seq<(u32, Octets)>,
) -> Result<Seq<(u32, Octets)>, Memory>
    ensures { (rest : List (List ℕ)) → IfOk result (λ all. handing all (take_pdus entity.new (readable entity.new.setup.n rest)) ≡ handing ups (take_pdus entity.old (readable entity.old.setup.n (octets.now ∷ rest)))) }
{
    match entity.take_pdu(octets)? {
        None => Ok(ups),
        Some(more) => {
            let all = joined(ups, more)?;
            Ok(all)
        }
    }
}

/// Octets that were kept come one after another.
fn take_pdus(
    alloc: Global,
    entity: &mut PdcpEntity,
    pdus: Seq<Octets>,
) -> Result<Seq<(u32, Octets)>, Memory>
    ensures { IfOk result (λ ups. (entity.new, ups) ≡ take_pdus entity.old (readable entity.old.setup.n pdus)) }
{
    let mut ups = Seq::new(alloc);
    for pdu in pdus.into_vec() {
        ups = take_one(entity, pdu.as_slice(), ups)?;
    }
    Ok(ups)
}

/// The anchor with the entity that was taken over, once the PDUs that were kept have come, open if it was told to.
pub(crate) fn adopted(
    alloc: Global,
    entity: PdcpEntity,
    pdus: Seq<Octets>,
    is_told: bool,
    policies: &Policies,
) -> Result<(ActiveAnchor, AnchorOut), Memory>
    ensures { (w : Waiting) → w.setup ≡ entity.setup → w.is_told ≡ is_told → w.pdus ≡ readable entity.setup.n pdus
        → IfOk result (λ done. (active_anchor done.0, done.1) ≡ adopts (by_policies (margins policies.now)) w entity) }
{
    let mut entity = entity;
    let before = entity.low();
    let ups = take_pdus(alloc, &mut entity, pdus)?;
    let low = risen(before, entity.low());
    let mut active = ActiveAnchor::closed(alloc, entity);
    let sends = active.open_if(is_told, policies)?;
    let out = AnchorOut {
        adopted: true,
        ups,
        low,
        sends,
    };
    Ok((active, out))
}
