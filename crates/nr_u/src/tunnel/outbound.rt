//! The sending end of a tunnel: what was sent, and what a delivery status says of it.

ghost use Rattle.std.specs.Prelude.{◌≡◌, ℕ, ◌<◌, ◌⊎◌, ◌^◌, ◌∷◌, ◌++◌, [], nat_lt, if◌then◌else◌, true, false, fold, slice_get, Some, List, Option, IfOk, OnOk, OnErr, IsPermutation};
ghost use Rattle.std.specs.List.{AllByRecursion};
ghost use Rattle.std.specs.List.Sorted.{IsSorted};
ghost use Rattle.std.specs.Ordering.{nat_cmp};
ghost use Rattle.std.specs.BTreeMap.{IsOrdered};
ghost use Rattle.std.specs.BTreeSet.{insert_key};
ghost use Rattle.dc_base.specs.Count.{modulus};
ghost use Rattle.nr_u.specs.Tunnel.Incoming.{Incoming, contains};
ghost use Rattle.nr_u.specs.Tunnel.Delivery.{status_of};
ghost use Rattle.nr_u.specs.Tunnel.Outgoing.{noted, with_sent, highest_of, first_send, IsHistory};
ghost use Rattle.nr_u.specs.Tunnel.Verdicts.{after_frame, confirmed_of, again_of, SaysDelivered};
ghost use Rattle.nr_u.specs.Tunnel.Ends.{IsOtherEnd, WasAcked};
ghost use Rattle.nr_u.specs.Tunnel.Waiting.{IsNext, AreGiven, ByNumber};

use super::asking::{take_asked, widen};
use super::confirming::take_confirmed;
use super::entries::note;
use crate::frame::Frame;
use dc_base::{Memory, Seq, SnLen, infer};
use std::alloc::Global;
use std::collections::{BTreeMap, BTreeSet};
use std::marker::Model;

/// A PDU that was sent in a tunnel: the COUNT of a data PDU, and whether it was sent again.
#[derive(Clone, Copy, Debug, PartialEq, Eq)]
pub struct Sent {
    pub count: Option<u32>,
    pub repeat: bool,
}

/// What a delivery status says: the COUNTs that it confirms, and the COUNTs to send again, ascending.
#[derive(Debug, Drop)]
pub struct Verdict {
    pub confirmed: Seq<u32>,
    pub again: Seq<u32>,
}

/// The sending end of a tunnel: the numbers that were given, and what the delivery statuses of them
/// confirmed and asked for (TS 38.425, 5.4.2). After a call that answers `Memory` it is not used
/// again.
#[derive(Debug, Drop)]
pub struct Outbound {
    n: SnLen,
    /// The number of the next PDU.
    next: u32,
    /// The first sends that no frame confirmed: the number, and the COUNT.
    waiting: BTreeMap<u32, u32>,
    /// The data PDUs that were not asked for again.
    unasked: BTreeMap<u32, u32>,
    /// Those of them to look at where a range lists them. The others were listed, and are below
    /// `reference` or confirmed.
    askable: BTreeMap<u32, u32>,
    /// The COUNTs that frames confirmed.
    confirmed: BTreeSet<u32>,
    /// Whether the COUNTs that wait do not fall, so that a frame confirms a front of them.
    in_order: bool,
    /// The reference of the last frame, and 0 before the first.
    reference: u32,
    alloc: Global,
}

impl Model for Outbound {
    ghost use Rattle.nr_u.specs.Tunnel.Outgoing.{Outgoing};
    ghost use Rattle.nr_u.specs.Tunnel.Waiting.{IsOutboundState};

    ghost Value = { Outgoing };

    ghost view = { λ a. record { n = a.n; next = a.next; waiting = a.waiting.entries; unasked = a.unasked.entries; confirmed = a.confirmed.keys } };

    ghost invariant = { λ a. IsOutboundState a.next a.waiting.entries a.unasked.entries a.askable.entries a.confirmed.keys a.in_order a.reference };
}

/// Whether the COUNTs that wait still do not fall when this one comes after them.
fn keeps_order(
    in_order: bool,
    waiting: &BTreeMap<u32, u32>,
    count: Option<u32>,
    repeat: bool,
) -> bool
    ensures before { result ≡ true → in_order ≡ true }
    ensures next { result ≡ true → repeat ≡ false → (c : ℕ) → count ≡ Some c → IsNext waiting.now.entries c }
{
    let Some(count) = count else {
        return in_order;
    };
    match waiting.last_key_value() {
        Some((_, last)) => in_order && (repeat || *last <= count),
        None => in_order,
    }
}

/// Notes the COUNT of a first send under its number. After `Memory` the map is as before.
fn note_first(
    waiting: &mut BTreeMap<u32, u32>,
    number: u32,
    count: Option<u32>,
    repeat: bool,
) -> Result<(), Memory>
    ensures ok { OnOk result (waiting.new.entries ≡ (if repeat then waiting.old.entries else noted count number waiting.old.entries)) }
    ensures err { OnErr result (waiting.new.entries ≡ waiting.old.entries) }
{
    if repeat {
        return Ok(());
    }
    note(waiting, number, count)
}

/// Notes a COUNT under a new number in both maps. After `Memory` both are as before.
fn note_both(
    unasked: &mut BTreeMap<u32, u32>,
    askable: &mut BTreeMap<u32, u32>,
    number: u32,
    count: Option<u32>,
) -> Result<(), Memory>
    requires { AreGiven number askable.old.entries }
    ensures unasked { OnOk result (unasked.new.entries ≡ noted count number unasked.old.entries) }
    ensures askable { OnOk result (askable.new.entries ≡ noted count number askable.old.entries) }
    ensures err_unasked { OnErr result (unasked.new.entries ≡ unasked.old.entries) }
    ensures err_askable { OnErr result (askable.new.entries ≡ askable.old.entries) }
    ensures ordered { ByNumber unasked.old.entries → ByNumber unasked.new.entries }
{
    note(askable, number, count)?;
    if note(unasked, number, count).is_err() {
        askable.remove(&number);
        return Err(Memory);
    }
    Ok(())
}

/// How many sequence numbers there are.
#[tactic(auto, unfolding(dc_base::specs::Count::modulus))]
fn modulus(n: SnLen) -> u32
    ensures { result ≡ modulus n }
{
    match n {
        SnLen::S12 => 1 << 12,
        SnLen::S18 => 1 << 18,
    }
}

/// The highest COUNT that a frame confirms. `low` is the reference for its sequence number.
fn highest_of(n: SnLen, low: u32, highest: Option<u32>) -> Option<u32>
    ensures { result ≡ highest_of n low highest }
{
    match highest {
        Some(sn) if sn < modulus(n) => infer(n, low, sn),
        _ => None,
    }
}

/// Adds COUNTs to a set. After `Memory` what was there is there.
fn add_all(set: &mut BTreeSet<u32>, counts: &[u32]) -> Result<(), Memory>
    ensures ok { OnOk result (set.new.keys ≡ fold (insert_key nat_cmp) set.old.keys counts.now) }
    ensures keeps { (count : ℕ) → contains count set.old.keys ≡ true → contains count set.new.keys ≡ true }
{
    for count in counts {
        set.insert(*count)?;
    }
    Ok(())
}

impl Outbound {
    /// A tunnel in which nothing was sent yet, with sequence numbers of this length.
    #[tactic(auto, using(crate::proofs::History::history_none, crate::proofs::Sending::state_none))]
    pub fn new(alloc: Global, n: SnLen) -> Outbound
        ensures empty { result ≡ record { n = n; next = 0; waiting = []; unasked = []; confirmed = [] } }
        ensures history { IsHistory [] result }
    {
        Outbound {
            n,
            next: 0,
            waiting: BTreeMap::new(alloc),
            unasked: BTreeMap::new(alloc),
            askable: BTreeMap::new(alloc),
            confirmed: BTreeSet::new(alloc),
            in_order: true,
            reference: 0,
            alloc,
        }
    }

    /// A PDU is sent: a data PDU has a COUNT. The answer is its number in the tunnel (24 bits). Fewer than
    /// 2^24 numbers were given before.
    pub fn sent(&mut self, count: Option<u32>, repeat: bool) -> Result<u32, Memory>
        requires { self.old.next < 2 ^ 24 }
        ensures number { IfOk result (λ number. number ≡ self.old.next) }
        ensures ok { OnOk result (self.new ≡ with_sent self.old (record { count = count; repeat = repeat })) }
        ensures history { (before : List Sent) → IsHistory before self.old
            → OnOk result (IsHistory (before ++ (record { count = count; repeat = repeat }) ∷ []) self.new) }
    {
        let number = self.next;
        self.next += 1;
        let in_order = keeps_order(self.in_order, &self.waiting, count, repeat);
        note_first(&mut self.waiting, number, count, repeat)?;
        self.in_order = in_order;
        note_both(&mut self.unasked, &mut self.askable, number, count)?;
        Ok(number)
    }

    /// A frame comes. `low` is the least COUNT that is not confirmed, the reference for its highest
    /// sequence number. A user data frame says nothing.
    pub fn on_status(&mut self, low: u32, f: &Frame) -> Result<Verdict, Memory>
        ensures state { OnOk result (self.new ≡ after_frame self.old low f.now) }
        ensures history { (sent : List Sent) → IsHistory sent self.old → OnOk result (IsHistory sent self.new) }
        ensures confirmed { IfOk result (λ v. v.confirmed ≡ confirmed_of self.old low f.now) }
        // The COUNTs to send again, in ascending order.
        ensures again { IfOk result (λ v. IsPermutation (again_of self.old low f.now) v.again) }
        ensures ascending { IfOk result (λ v. IsSorted nat_cmp v.again) }
        // Each first send that the frame says was delivered is confirmed, now or by a frame before it.
        ensures delivered { (sent : List Sent) (number count : ℕ) → IsHistory sent self.old → slice_get sent number ≡ Some (first_send count) → SaysDelivered self.old low f.now (number, count)
            → IfOk result (λ v. (contains count v.confirmed ≡ true) ⊎ (contains count self.old.confirmed ≡ true)) }
        // The status of the other end confirms a COUNT only where its number came and was acked.
        ensures acked { (sent : List Sent) (i : Incoming) → IsHistory sent self.old → IsOtherEnd self.old.n sent low i → f.now ≡ status_of i → IfOk result (λ v. AllByRecursion (WasAcked sent i) v.confirmed) }
    {
        let Frame::Status { highest, lost } = f else {
            let confirmed = Seq::new(self.alloc);
            let again = Seq::new(self.alloc);
            return Ok(Verdict { confirmed, again });
        };
        let lost = lost.as_slice();
        let highest = highest_of(self.n, low, *highest);
        let confirmed = take_confirmed(
            self.alloc,
            &mut self.waiting,
            self.next,
            self.in_order,
            highest,
            lost,
        )?;
        add_all(&mut self.confirmed, confirmed.as_slice())?;
        widen(&mut self.askable, &self.unasked, self.reference, low)?;
        self.reference = low;
        let mut again = take_asked(
            self.alloc,
            &mut self.unasked,
            &mut self.askable,
            &self.confirmed,
            low,
            lost,
        )?;
        again.sort_unstable();
        Ok(Verdict {
            confirmed: Seq::from_vec(confirmed),
            again: Seq::from_vec(again),
        })
    }
}
