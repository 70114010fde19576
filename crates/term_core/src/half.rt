//! What the terminal holds of one bearer.

ghost use Rattle.std.specs.Prelude.{◌≡◌, ◌++◌, IfOk, IsTrue, OnOk};
ghost use Rattle.std.specs.List.{flat_map};
ghost use Rattle.node_rules.specs.Choices.{by_policies};
ghost use Rattle.node_rules.specs.Entity.{risen};
ghost use Rattle.node_rules.specs.Setup.{cell_of, node_of};
ghost use Rattle.node_rules.specs.TerminalHalf.{ack, has_live_scg, is_taken, leg_send, pdu_came, silent, terminal_air_in, terminal_fail, terminal_new, terminal_recover, terminal_renew, terminal_report, terminal_submit, with_sends};
ghost use Rattle.pdcp_pdu.specs.DataPdu.{IsPayload};
ghost use Rattle.pdcp_pdu.specs.Pdu.{decoded};
ghost use Rattle.pdcp_tx.specs.Sender.{low};
ghost use Rattle.split_leg.specs.Stored.{margins};

use dc_base::{
    Answer, Cell, Class, DrbId, Flight, Gen, LinkId, Memory, Node, Octets, Refusal, Seq,
};
use node_rules::{HalfOut, OnLeg};
use pdcp_entity::{PdcpEntity, Setup};
use pdcp_tx::TxErr;
use split_leg::Policies;
use std::alloc::Global;
use std::marker::Model;

/// What the terminal holds of a bearer: its PDCP entity over the legs (TS 38.323, 4.2.2). After a call that answers `Memory`
/// it is not used again.
#[derive(Drop)]
pub struct TerminalHalf {
    alloc: Global,
    entity: PdcpEntity,
}

impl Model for TerminalHalf {
    ghost use Rattle.node_rules.specs.Entity.{Entity};

    ghost Value = { Entity };

    ghost view = { λ a. a.entity };
}

impl TerminalHalf {
    /// A new bearer (TS 38.331, 5.3.5.6.5). It takes no memory.
    pub fn new(alloc: Global, setup: Setup) -> TerminalHalf
        ensures { result ≡ terminal_new setup }
    {
        TerminalHalf {
            alloc,
            entity: PdcpEntity::new(alloc, setup),
        }
    }

    /// What is set up for the bearer.
    pub fn setup(&self) -> &Setup
        ensures { result.now ≡ self.now.setup }
    {
        self.entity.setup()
    }

    /// The COUNT of the next SDU to hand up (TS 38.323, 7.1).
    pub fn rx_deliv(&self) -> u32
        ensures { result ≡ self.now.rx.deliv }
    {
        self.entity.rx_deliv()
    }

    /// The least COUNT that is not confirmed, or the next one.
    pub fn low(&self) -> u32
        ensures { result ≡ low self.now.tx }
    {
        self.entity.low()
    }

    /// An SDU of 1 to 9000 octets is submitted (TS 38.323, 5.2.1): it is sent, or refused where there is no room or no COUNT.
    /// No script has an SDU of another length; of one it says `Memory`.
    pub fn submit(
        &mut self,
        sdu: Octets,
        policies: &Policies,
    ) -> Result<(Answer, Seq<(LinkId, Flight)>), Memory>
        ensures { IfOk result (λ out. (self.new, out.0, out.1) ≡ terminal_submit (by_policies (margins policies.now)) self.old sdu) }
    {
        if !is_payload(sdu.as_slice()) {
            return Err(Memory);
        }
        match self.entity.take(sdu) {
            Ok(count) => {
                let put = self.entity.send_counts(policies, &[count])?;
                Ok((Answer::Ok, self.sends(put)?))
            }
            Err(TxErr::Full { .. }) => Ok((Answer::No(Refusal::Full), Seq::new(self.alloc))),
            Err(TxErr::Exhausted) => Ok((Answer::No(Refusal::Exhausted), Seq::new(self.alloc))),
            Err(TxErr::Memory) => Err(Memory),
        }
    }

    /// All that is kept is sent again (TS 38.323, 5.4.1 and 5.5).
    pub fn recover(&mut self, policies: &Policies) -> Result<Seq<(LinkId, Flight)>, Memory>
        ensures { IfOk result (λ sends. (self.new, sends) ≡ terminal_recover (by_policies (margins policies.now)) self.old) }
    {
        let put = self.entity.send_kept(policies)?;
        self.sends(put)
    }

    /// The bearer in a new generation: new legs and a new key, and all that is kept is sent again. No run gives a bearer another
    /// length of sequence numbers while it is there; of one it says `Memory`.
    pub fn renew(
        &mut self,
        setup: Setup,
        policies: &Policies,
    ) -> Result<Seq<(LinkId, Flight)>, Memory>
        ensures { IfOk result (λ sends. (self.new, sends) ≡ terminal_renew (by_policies (margins policies.now)) self.old setup) }
    {
        if setup.n() != self.entity.setup().n() {
            return Err(Memory);
        }
        self.entity.renew(setup);
        self.recover(policies)
    }

    /// Whether the bearer has an SCG leg that did not fail yet.
    pub fn has_live_scg(&self) -> bool
        ensures { result ≡ has_live_scg self.now }
    {
        let setup = self.entity.setup();
        setup.has_cell(Cell::Scg) && !setup.has_failed(Cell::Scg)
    }

    /// The SCG fails (TS 37.340, 7.7): the SCG leg, if there is one, is marked.
    pub fn fail(&mut self)
        ensures { self.new ≡ terminal_fail self.old }
    {
        if self.entity.setup().has_cell(Cell::Scg) {
            self.entity.fail_scg();
        }
    }

    /// A status report is asked for (TS 38.323, 5.4.1).
    pub fn report(&mut self, policies: &Policies) -> Result<Seq<(LinkId, Flight)>, Memory>
        ensures { IfOk result (λ sends. (self.new, sends) ≡ terminal_report (by_policies (margins policies.now)) self.old) }
    {
        let put = self.entity.send_report(policies)?;
        self.sends(put)
    }

    /// A flight comes over the air from a node: only PDUs and their confirms do, and only those of the bearer, its generation
    /// and a leg at that node that did not fail are taken.
    pub fn air_in(&mut self, from: Node, flight: Flight) -> Result<HalfOut, Memory>
        ensures { IfOk result (λ out. (self.new, out) ≡ terminal_air_in self.old from flight) }
    {
        match flight {
            Flight::Air {
                id,
                g,
                num,
                pdu,
                ..
            } => {
                if self.is_taken(from, id, g) {
                    self.pdu_came(from, num, &pdu)
                } else {
                    Ok(silent(self.alloc))
                }
            }
            Flight::Ack { id, g, num } => {
                if self.is_taken(from, id, g) {
                    self.entity.leg_acked(cell_of(from), num);
                }
                Ok(silent(self.alloc))
            }
            _ => Ok(silent(self.alloc)),
        }
    }

    // A PDU comes as this number of the leg of a node. It is confirmed, unless it can not be read.
    fn pdu_came(&mut self, from: Node, num: u32, pdu: &Octets) -> Result<HalfOut, Memory>
        ensures { IfOk result (λ out. (self.new, out) ≡ pdu_came self.old from num (decoded self.old.setup.n pdu.now)) }
    {
        let before = self.entity.low();
        let sends = self.ack(from, num)?;
        match self.entity.take_pdu(pdu.as_slice())? {
            Some(ups) => Ok(HalfOut {
                ups,
                low: risen(before, self.entity.low()),
                sends,
            }),
            None => Ok(silent(self.alloc)),
        }
    }

    // The confirm of a downlink PDU, to the node that sent it.
    fn ack(&self, from: Node, num: u32) -> Result<Seq<(LinkId, Flight)>, Memory>
        ensures { IfOk result (λ sends. sends ≡ ack self.now.setup from num) }
    {
        let setup = self.entity.setup();
        let mut sends = Seq::new(self.alloc);
        let link = LinkId::new(Node::T, from, Class::Air);
        let ack = Flight::Ack {
            id: setup.id(),
            g: setup.g(),
            num,
        };
        sends.push((link, ack))?;
        Ok(sends)
    }

    // Whether the terminal takes what comes from a node.
    fn is_taken(&self, from: Node, id: DrbId, g: Gen) -> bool
        ensures { result ≡ is_taken self.now.setup from id g }
    {
        let setup = self.entity.setup();
        setup.is_of(id, g) && setup.has_leg_at(from) && !setup.has_failed(cell_of(from))
    }

    // What the entity put on the legs goes over the air.
    fn sends(&self, put: Seq<OnLeg>) -> Result<Seq<(LinkId, Flight)>, Memory>
        ensures { IfOk result (λ sends. (self.now, sends) ≡ with_sends (self.now, put)) }
    {
        air_sends(self.alloc, self.entity.setup(), put)
    }
}

// Whether these are the octets of a payload: 1 to 9000 of them.
fn is_payload(octets: &[u8]) -> bool
    ensures { IsTrue result → IsPayload octets.now }
{
    !octets.is_empty() && octets.len() <= 9000
}

// Nothing comes of it.
fn silent(alloc: Global) -> HalfOut
    ensures { result ≡ silent }
{
    HalfOut {
        ups: Seq::new(alloc),
        low: None,
        sends: Seq::new(alloc),
    }
}

// Low after a step, where it rose.
fn risen(before: u32, after: u32) -> Option<u32>
    ensures { result ≡ risen before after }
{
    if before < after { Some(after) } else { None }
}

// The cell group of a node.
fn cell_of(node: Node) -> Cell
    ensures { result ≡ cell_of node }
{
    match node {
        Node::M => Cell::Mcg,
        Node::T => Cell::Scg,
        Node::A => Cell::Scg,
        Node::B => Cell::Scg,
    }
}

// The node of a cell group: the master, or the secondary of the plan.
fn node_of(sec: Option<Node>, cell: Cell) -> Option<Node>
    ensures { result ≡ node_of sec cell }
{
    match cell {
        Cell::Mcg => Some(Node::M),
        Cell::Scg => sec,
    }
}

// What was put on the legs goes over the air, to the nodes of the legs.
fn air_sends(alloc: Global, setup: &Setup, put: Seq<OnLeg>) -> Result<Seq<(LinkId, Flight)>, Memory>
    ensures { IfOk result (λ sends. sends ≡ flat_map (λ p. leg_send setup.now p (node_of setup.now.sec p.cell)) put) }
{
    let mut sends = Seq::new(alloc);
    for on_leg in put.into_vec() {
        push_send(&mut sends, setup, on_leg)?;
    }
    Ok(sends)
}

// A PDU on a leg goes over the air to the node of the leg, if there is one.
fn push_send(sends: &mut Seq<(LinkId, Flight)>, setup: &Setup, on_leg: OnLeg) -> Result<(), Memory>
    ensures { OnOk result (sends.new ≡ sends.old ++ leg_send setup.now on_leg (node_of setup.now.sec on_leg.cell)) }
{
    let OnLeg {
        cell,
        num,
        repeat: _,
        pdu,
    } = on_leg;
    let (tag, pdu) = pdu;
    let Some(node) = node_of(setup.sec(), cell) else {
        return Ok(());
    };
    let flight = Flight::Air {
        id: setup.id(),
        g: setup.g(),
        num,
        tag,
        pdu,
    };
    sends.push((LinkId::new(Node::T, node, Class::Air), flight))
}
