//! What of the SDUs that an old anchor forwarded is taken over (TS 38.423, 8.2.2).

ghost use Rattle.std.specs.Prelude.{◌≡◌, ◌++◌, ◌∷◌, [], All, None, Some, not, true, IfOk, OnOk};
ghost use Rattle.std.specs.List.{filter_map};
ghost use Rattle.dc_base.specs.Count.{modulus};
ghost use Rattle.node_rules.specs.Adopting.{count_of, counted, if_fresh, is_payload, with_counted};
ghost use Rattle.pdcp_pdu.specs.DataPdu.{IsPayload};
ghost use Rattle.anchor.specs.Bounds.{may_be, reference_of};

use crate::payload::is_payload;
use dc_base::{Memory, Octets, Seq, SnLen, infer};
use std::alloc::Global;
use std::collections::BTreeMap;

/// Which COUNTs may be there.
#[derive(Clone, Copy, Debug, PartialEq, Eq)]
pub(crate) enum Bounds {
    /// In downlink those below that of the next SDU.
    Numbered { dl: u32 },
    /// In uplink those above RX_DELIV, but not the last COUNT.
    Stored { ul: u32 },
}

/// The forwarded SDUs of a direction that are taken: those that have a COUNT, in ascending COUNT, and in their order those
/// that have no SN.
#[derive(Drop)]
pub(crate) struct Forwarded {
    pub counted: Seq<(u32, Octets)>,
    pub fresh: Seq<Octets>,
}

impl Bounds {
    /// The reference for the sequence numbers.
    fn reference(self) -> u32
        ensures { result ≡ reference_of self }
    {
        match self {
            Bounds::Numbered { dl } => dl,
            Bounds::Stored { ul } => ul,
        }
    }

    /// Whether the COUNT may be there.
    fn may_be(self, count: u32) -> bool
        ensures { result ≡ may_be self count }
    {
        match self {
            Bounds::Numbered { dl } => count < dl,
            Bounds::Stored { ul } => ul < count && count < u32::MAX,
        }
    }

    /// Whether it may not be there.
    fn excludes(self, count: u32) -> bool
        ensures { result ≡ not (may_be self count) }
    {
        !self.may_be(count)
    }
}

/// How many sequence numbers there are.
#[tactic(auto, unfolding(dc_base::specs::Count::modulus))]
fn modulus(n: SnLen) -> u32
    ensures { result ≡ modulus n }
{
    match n {
        SnLen::S12 => 1 << 12,
        SnLen::S18 => 1 << 18,
    }
}

/// The COUNT of an SN, if it is one of the bearer.
fn count_of(n: SnLen, reference: u32, sn: Option<u32>) -> Option<u32>
    ensures { result ≡ count_of n reference sn }
{
    match sn {
        Some(sn) if sn < modulus(n) => infer(n, reference, sn),
        _ => None,
    }
}

/// A payload with a COUNT is taken, unless its COUNT may not be there, or one of its COUNT is there already.
fn take_payload(
    entries: &mut BTreeMap<u32, Octets>,
    bounds: Bounds,
    sdu: Octets,
    count: u32,
) -> Result<(), Memory>
    requires value { is_payload sdu ≡ true }
    requires payload { IsPayload sdu }
    ensures entries { OnOk result (entries.new.entries ≡ with_counted (may_be bounds) entries.old.entries sdu (Some count)) }
    ensures payloads { All (λ x. IsPayload x.1) entries.old.entries → OnOk result (All (λ x. IsPayload x.1) entries.new.entries) }
{
    if bounds.excludes(count) {
        return Ok(());
    }
    if entries.contains_key(&count) {
        return Ok(());
    }
    entries.insert(count, sdu)?;
    Ok(())
}

/// An SDU with a COUNT is taken, if it is a payload and may be there.
fn take_counted(
    entries: &mut BTreeMap<u32, Octets>,
    bounds: Bounds,
    sdu: Octets,
    count: Option<u32>,
) -> Result<(), Memory>
    ensures entries { OnOk result (entries.new.entries ≡ with_counted (may_be bounds) entries.old.entries sdu count) }
    ensures payloads { All (λ x. IsPayload x.1) entries.old.entries → OnOk result (All (λ x. IsPayload x.1) entries.new.entries) }
{
    let Some(count) = count else {
        return Ok(());
    };
    if !is_payload(sdu.as_slice()) {
        return Ok(());
    }
    take_payload(entries, bounds, sdu, count)
}

/// An SDU without an SN is taken, if it is a payload.
fn take_fresh(list: &mut Seq<Octets>, sdu: Octets) -> Result<(), Memory>
    ensures list { OnOk result (list.new ≡ list.old ++ filter_map if_fresh ((None, sdu) ∷ [])) }
    ensures payloads { All IsPayload list.old → OnOk result (All IsPayload list.new) }
{
    if is_payload(sdu.as_slice()) {
        list.push(sdu)?;
    }
    Ok(())
}

/// The SDUs are sorted out, one after another.
fn sorted_out(
    alloc: Global,
    n: SnLen,
    bounds: Bounds,
    sdus: Seq<(Option<u32>, Octets)>,
) -> Result<(BTreeMap<u32, Octets>, Seq<Octets>), Memory>
    ensures counted { IfOk result (λ x. x.0.entries ≡ counted n (reference_of bounds) (may_be bounds) sdus) }
    ensures fresh { IfOk result (λ x. x.1 ≡ filter_map if_fresh sdus) }
    ensures payloads { IfOk result (λ x. All (λ y. IsPayload y.1) x.0.entries × All IsPayload x.1) }
{
    let mut entries = BTreeMap::new(alloc);
    let mut fresh = Seq::new(alloc);
    let reference = bounds.reference();
    for (sn, sdu) in sdus.into_vec() {
        if sn.is_none() {
            take_fresh(&mut fresh, sdu)?;
        } else {
            take_counted(&mut entries, bounds, sdu, count_of(n, reference, sn))?;
        }
    }
    Ok((entries, fresh))
}

/// What is taken of the SDUs of a direction.
pub(crate) fn taken(
    alloc: Global,
    n: SnLen,
    bounds: Bounds,
    sdus: Seq<(Option<u32>, Octets)>,
) -> Result<Forwarded, Memory>
    ensures counted { IfOk result (λ x. x.counted ≡ counted n (reference_of bounds) (may_be bounds) sdus) }
    ensures fresh { IfOk result (λ x. x.fresh ≡ filter_map if_fresh sdus) }
    ensures kept { IfOk result (λ x. All (λ y. IsPayload y.1) x.counted) }
    ensures held { IfOk result (λ x. All IsPayload x.fresh) }
{
    let (entries, fresh) = sorted_out(alloc, n, bounds, sdus)?;
    let counted = Seq::from_vec(entries.into_iter().collect(alloc)?);
    Ok(Forwarded { counted, fresh })
}
