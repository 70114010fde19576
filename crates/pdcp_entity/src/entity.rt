//! The PDCP entity.

ghost use Rattle.std.specs.Prelude.{◌≡◌, ◌<◌, ◌≤◌, ◌+◌, ◌-◌, ◌^◌, ◌==◌, ◌++◌, [], ◌∷◌, false, length, All, Err, IsNone, IfOk, IfErr, IfSome, Ok, OnOk, OnErr};
ghost use Rattle.std.specs.List.Sorted.{IsStrictlyIncreasing};
ghost use Rattle.std.specs.Option.{option_map};
ghost use Rattle.dc_base.specs.Count.{modulus, window};
ghost use Rattle.node_rules.specs.Choices.{by_policies};
ghost use Rattle.node_rules.specs.Entity.{confirmed_count, confirmed_where, new_entity, received_under, renewed, take_pdu};
ghost use Rattle.node_rules.specs.Sending.{send_counts, send_kept, send_report};
ghost use Rattle.node_rules.specs.Setup.{with_failed_scg};
ghost use Rattle.nr_u.specs.Tunnel.Incoming.{contains};
ghost use Rattle.pdcp_entity.specs.Reading.{taken};
ghost use Rattle.pdcp_entity.specs.Room.{has_room};
ghost use Rattle.pdcp_pdu.specs.Bitmap.{names};
ghost use Rattle.pdcp_pdu.specs.DataPdu.{IsPayload};
ghost use Rattle.pdcp_pdu.specs.Pdu.{sdu};
ghost use Rattle.pdcp_rx.specs.Receiver.{IsInOrder};
ghost use Rattle.pdcp_tx.specs.Sender.{counts, low};
ghost use Rattle.pdcp_tx.specs.Sending.{IsRefused, give_numbers, hold_sdu, take_sdu};
ghost use Rattle.pdcp_tx.specs.declared.tx.TxErr.{TxErr};
ghost use Rattle.split_leg.specs.Legs.{acked_count, leg_at, with_ack, with_leg};
ghost use Rattle.split_leg.specs.Stored.{margins};

use crate::confirming::{drop_each, set_of, those_in};
use crate::setup::Setup;
use dc_base::{Cell, Memory, Octets, Seq, Tag, infer, window};
use node_rules::OnLeg;
use pdcp_pdu::{Pdu, decode};
use pdcp_rx::{Put, Rx, RxParts};
use pdcp_tx::{Tx, TxErr, TxParts};
use split_leg::Policies;
use std::alloc::Global;
use std::marker::Model;

/// A PDCP entity in one generation: what is set up for its bearer, its sending and its receiving side. After a call that
/// answers `Memory` it is not used again, but for the calls that say otherwise.
#[derive(Drop)]
pub struct PdcpEntity {
    setup: Setup,
    tx: Tx,
    rx: Rx,
}

impl Model for PdcpEntity {
    ghost use Rattle.std.specs.Prelude.{◌≡◌, All};
    ghost use Rattle.node_rules.specs.Entity.{Entity};
    ghost use Rattle.pdcp_pdu.specs.DataPdu.{IsPayload};

    ghost Value = { Entity };

    ghost view = { λ a. record { setup = a.setup; tx = a.tx; rx = a.rx } };

    // Both sides have the bearer's SN length, and what is kept or held was submitted.
    ghost invariant = { λ a. (a.tx.n ≡ a.setup.n) × (a.rx.n ≡ a.setup.n) × All (λ x. IsPayload x.1) a.tx.kept × All IsPayload a.tx.held };
}

impl PdcpEntity {
    /// An entity before anything was submitted or came: both sides begin at the first COUNT. It takes no memory.
    pub fn new(alloc: Global, setup: Setup) -> PdcpEntity
        ensures { result ≡ new_entity setup }
    {
        let n = setup.n();
        let first = setup.first();
        PdcpEntity {
            setup,
            tx: Tx::new(alloc, n, first),
            rx: Rx::new(alloc, n, first),
        }
    }

    /// An entity that is taken over: both sides as another node left them.
    pub fn adopt(setup: Setup, tx: TxParts, rx: RxParts) -> Result<PdcpEntity, Memory>
        requires tx_length { tx.n ≡ setup.n }
        requires rx_length { rx.n ≡ setup.n }
        requires kept { All (λ x. IsPayload x.1) tx.kept }
        requires held { All IsPayload tx.held }
        requires ascending { IsStrictlyIncreasing (counts tx.kept) }
        requires below { All (λ count. count < tx.next) (counts tx.kept) }
        requires near { All (λ count. tx.next ≤ count + window tx.n) (counts tx.kept) }
        requires in_order { IsInOrder rx }
        ensures { IfOk result (λ made. made ≡ record { setup = setup; tx = record { n = tx.n; next = tx.next; kept = tx.kept; held = tx.held }; rx = rx }) }
    {
        let alloc = setup.alloc();
        Ok(PdcpEntity {
            setup,
            tx: Tx::adopt(tx),
            rx: Rx::adopt(alloc, rx)?,
        })
    }

    /// What is set up for the bearer.
    pub fn setup(&self) -> &Setup
        ensures { result.now ≡ self.now.setup }
    {
        &self.setup
    }

    /// The same entity in a new generation.
    pub fn renew(&mut self, setup: Setup)
        requires { setup.n ≡ self.old.setup.n }
        ensures { self.new ≡ renewed self.old setup }
    {
        self.setup = setup;
    }

    /// The least COUNT that is not confirmed, or the next one.
    pub fn low(&self) -> u32
        ensures { result ≡ low self.now.tx }
    {
        self.tx.low()
    }

    /// The COUNT of the next SDU to hand up (TS 38.323, 7.1).
    pub fn rx_deliv(&self) -> u32
        ensures { result ≡ self.now.rx.deliv }
    {
        self.rx.deliv()
    }

    /// Gives an SDU of 1 to 9000 octets its COUNT and keeps it (TS 38.323, 5.2.1). After an error all is as before.
    pub fn take(&mut self, sdu: Octets) -> Result<u32, TxErr>
        requires { IsPayload sdu }
        ensures ok { IfOk result (λ count. take_sdu self.old.tx sdu ≡ Ok (self.new.tx, count)) }
        ensures rest { self.new ≡ record self.old { tx = self.new.tx } }
        ensures err { IfErr result (IsRefused (take_sdu self.old.tx sdu)) }
        ensures same { OnErr result (self.new ≡ self.old) }
    {
        self.tx.take(sdu)
    }

    /// Keeps an SDU of 1 to 9000 octets without a COUNT. After `Memory` all is as before.
    pub fn hold(&mut self, sdu: Octets) -> Result<(), Memory>
        requires { IsPayload sdu }
        ensures ok { OnOk result (self.new ≡ record self.old { tx = hold_sdu self.old.tx sdu }) }
        ensures err { OnErr result (self.new ≡ self.old) }
    {
        self.tx.hold(sdu)
    }

    // Whether an SDU can have a COUNT: the window has room for it, and a COUNT is left.
    fn has_room(&self) -> bool
        ensures { result ≡ has_room self.now.tx }
    {
        let next = self.tx.next();
        let end = u64::from(self.tx.low()) + u64::from(window(self.setup.n()));
        let is_full = end <= u64::from(next);
        !is_full && next != u32::MAX
    }

    /// Gives an SDU of 1 to 9000 octets its COUNT and keeps it (TS 38.323, 5.2.1), or keeps it without one where the window is full
    /// or no COUNT is left: the COUNT, or `None`.
    pub fn take_or_hold(&mut self, sdu: Octets) -> Result<Option<u32>, Memory>
        requires { IsPayload sdu }
        ensures taken { IfOk result (λ found. IfSome found (λ count. take_sdu self.old.tx sdu ≡ Ok (self.new.tx, count))) }
        ensures refused { IfOk result (λ found. IsNone found → (e : TxErr) × (take_sdu self.old.tx sdu ≡ Err e)) }
        ensures held { IfOk result (λ found. IsNone found → self.new.tx ≡ hold_sdu self.old.tx sdu) }
        ensures rest { self.new ≡ record self.old { tx = self.new.tx } }
    {
        if !self.has_room() {
            self.hold(sdu)?;
            return Ok(None);
        }
        match self.take(sdu) {
            Ok(count) => Ok(Some(count)),
            Err(TxErr::Memory) => Err(Memory),
            Err(TxErr::Full { .. }) => unreachable!(),
            Err(TxErr::Exhausted) => unreachable!(),
        }
    }

    /// Gives the SDUs that are held their COUNTs, in order, and answers these. After an error all is as before.
    pub fn give_numbers(&mut self) -> Result<Seq<u32>, TxErr>
        ensures ok { IfOk result (λ given. give_numbers self.old.tx ≡ Ok (self.new.tx, given)) }
        ensures rest { self.new ≡ record self.old { tx = self.new.tx } }
        ensures err { IfErr result (IsRefused (give_numbers self.old.tx)) }
        ensures same { OnErr result (self.new ≡ self.old) }
    {
        self.tx.give_numbers()
    }

    /// Puts the data PDUs of these COUNTs on the legs, in this order, each whose SDU is kept (TS 38.323, 5.2.1). A leg carries
    /// far fewer than 2^32 PDUs in a generation; of one more it says `Memory`.
    pub fn send_counts(&mut self, policies: &Policies, send: &[u32]) -> Result<Seq<OnLeg>, Memory>
        ensures { IfOk result (λ put. (self.new, put) ≡ send_counts (by_policies (margins policies.now)) self.old send.now) }
    {
        let mut put = Seq::new(self.setup.alloc());
        for count in send {
            self.send_if_kept(policies, *count, &mut put)?;
        }
        Ok(put)
    }

    // Puts the data PDU of a COUNT on the legs, if its SDU is kept; what was put comes behind the others.
    fn send_if_kept(
        &mut self,
        policies: &Policies,
        count: u32,
        put: &mut Seq<OnLeg>,
    ) -> Result<(), Memory>
        ensures entity { OnOk result (self.new ≡ (send_counts (by_policies (margins policies.now)) self.old (count ∷ [])).0) }
        ensures put { OnOk result (put.new ≡ put.old ++ (send_counts (by_policies (margins policies.now)) self.old (count ∷ [])).1) }
    {
        match self.tx.sdu(count) {
            None => Ok(()),
            Some(sdu) => self.setup.send_data(policies, count, sdu, put),
        }
    }

    /// Puts the data PDUs of all that is kept on the legs again, in ascending COUNT (TS 38.323, 5.4.1 and 5.5).
    pub fn send_kept(&mut self, policies: &Policies) -> Result<Seq<OnLeg>, Memory>
        ensures { IfOk result (λ put. (self.new, put) ≡ send_kept (by_policies (margins policies.now)) self.old) }
    {
        let counts = self.tx.unconfirmed()?;
        self.send_counts(policies, counts.as_slice())
    }

    /// Puts a status report of what was received on a leg (TS 38.323, 5.4.1).
    pub fn send_report(&mut self, policies: &Policies) -> Result<Seq<OnLeg>, Memory>
        ensures { IfOk result (λ put. (self.new, put) ≡ send_report (by_policies (margins policies.now)) self.old) }
    {
        let mut put = Seq::new(self.setup.alloc());
        let report = self.rx.report()?;
        self.setup.send(policies, Tag::none(), report, &mut put)?;
        Ok(put)
    }

    /// Takes the octets of a PDU: a data PDU is received, a status report confirms what it names (TS 38.323, 5.2.2 and 5.4.2).
    /// It answers the SDUs to hand up with their COUNTs, or `None` exactly where the octets are no PDU, and then all is as before.
    pub fn take_pdu(&mut self, octets: &[u8]) -> Result<Option<Seq<(u32, Octets)>>, Memory>
        ensures came { IfOk result (λ ups. option_map (λ u. (self.new, u)) ups ≡ taken self.old octets.now) }
        ensures same { IfOk result (λ ups. IsNone ups → self.new ≡ self.old) }
    {
        match decode(self.setup.n(), octets) {
            Ok(Pdu::Sdu { sn, body }) => Ok(Some(self.receive(sn, body)?)),
            Ok(Pdu::Report { fmc, bits }) => {
                self.confirm_named(fmc, bits)?;
                Ok(Some(Seq::new(self.setup.alloc())))
            }
            Err(_) => Ok(None),
        }
    }

    // A data PDU with this sequence number comes: its COUNT is inferred with RX_DELIV as the reference (TS 38.323, 5.2.2.1). The
    // last COUNT is not used.
    fn receive(&mut self, sn: u32, body: &[u8]) -> Result<Seq<(u32, Octets)>, Memory>
        requires small { sn < modulus self.old.setup.n }
        requires long { length body.now ≤ 9000 }
        ensures { IfOk result (λ ups. (self.new, ups) ≡ take_pdu self.old (sdu sn body.now)) }
    {
        let Some(count) = infer(self.setup.n(), self.rx.deliv(), sn) else {
            return Ok(Seq::new(self.setup.alloc()));
        };
        if count == u32::MAX {
            return Ok(Seq::new(self.setup.alloc()));
        }
        self.receive_under(count, body)
    }

    // A data PDU comes under this COUNT.
    fn receive_under(&mut self, count: u32, body: &[u8]) -> Result<Seq<(u32, Octets)>, Memory>
        requires not_last { count < 2 ^ 32 - 1 }
        requires in_window { count < self.old.rx.deliv + window self.old.rx.n }
        requires long { length body.now ≤ 9000 }
        ensures rx { IfOk result (λ ups. self.new ≡ record self.old { rx = (received_under false self.old.setup self.old.rx count body.now).0 }) }
        ensures ups { IfOk result (λ ups. ups ≡ (received_under false self.old.setup self.old.rx count body.now).1) }
    {
        let sdu = self.setup.deciphered(count, body)?;
        match self.rx.put(count, sdu)? {
            Put::Stored { handed } => Ok(handed),
            Put::Old { .. } => Ok(Seq::new(self.setup.alloc())),
            Put::Again => Ok(Seq::new(self.setup.alloc())),
        }
    }

    // A status report confirms all COUNTs that it names (TS 38.323, 5.4.2).
    fn confirm_named(&mut self, fmc: u32, bits: &[u8]) -> Result<(), Memory>
        ensures { OnOk result (self.new ≡ confirmed_where (names fmc bits.now) self.old) }
    {
        let kept = self.tx.unconfirmed()?;
        self.setup.settle_named(kept.as_slice(), fmc, bits);
        self.tx.on_report(fmc, bits);
        Ok(())
    }

    /// Takes the ack of a PDU on a leg, and answers the COUNT that it is about: `None` exactly for a control PDU, a number that
    /// was not given, or one whose ack came before. It confirms nothing.
    pub fn leg_acked(&mut self, cell: Cell, num: u32) -> Option<u32>
        ensures count { result ≡ acked_count (leg_at self.old.setup.legs cell).pdus num }
        ensures after { self.new ≡ record self.old { setup = record self.old.setup { legs = with_leg self.old.setup.legs cell (with_ack (leg_at self.old.setup.legs cell) num) } } }
    {
        self.setup.acked(cell, num)
    }

    /// Confirms a COUNT, if it is one: its SDU is kept no more.
    pub fn confirm(&mut self, count: Option<u32>) -> Result<(), Memory>
        ensures { OnOk result (self.new ≡ confirmed_count self.old count) }
    {
        if let Some(count) = count {
            self.confirm_one(count);
        }
        Ok(())
    }

    // Confirms a COUNT.
    fn confirm_one(&mut self, count: u32)
        ensures { self.new ≡ confirmed_where (λ c. c == count) self.old }
    {
        if self.tx.sdu(count).is_none() {
            return;
        }
        self.setup.settle(count);
        self.tx.confirm(count);
    }

    /// Confirms all COUNTs that are among these.
    pub fn confirm_all(&mut self, counts: &[u32]) -> Result<(), Memory>
        ensures { OnOk result (self.new ≡ confirmed_where (λ c. contains c counts.now) self.old) }
    {
        let kept = self.tx.unconfirmed()?;
        let alloc = self.setup.alloc();
        let named = those_in(alloc, kept.as_slice(), &set_of(alloc, counts)?)?;
        self.setup.settle_each(named.as_slice());
        drop_each(&mut self.tx, named.as_slice());
        Ok(())
    }

    /// Marks the SCG leg as failed (TS 37.340, 7.7).
    pub fn fail_scg(&mut self)
        ensures { self.new ≡ record self.old { setup = with_failed_scg self.old.setup } }
    {
        self.setup.fail_scg();
    }

    /// Takes the entity apart, as the node leaves it.
    pub fn freeze(self) -> Result<(Setup, TxParts, RxParts), Memory>
        ensures setup { IfOk result (λ x. x.0 ≡ self.setup) }
        ensures tx { IfOk result (λ x. x.1 ≡ record { n = self.tx.n; next = self.tx.next; kept = self.tx.kept; held = self.tx.held }) }
        ensures rx { IfOk result (λ x. x.2 ≡ self.rx) }
        ensures lengths { IfOk result (λ x. (x.1.n ≡ x.0.n) × (x.2.n ≡ x.0.n)) }
        ensures payloads { IfOk result (λ x. All (λ y. IsPayload y.1) x.1.kept × All IsPayload x.1.held) }
        ensures in_order { IfOk result (λ x. IsInOrder x.2) }
    {
        let PdcpEntity { setup, tx, rx } = self;
        Ok((setup, tx.freeze(), rx.freeze()?))
    }
}
