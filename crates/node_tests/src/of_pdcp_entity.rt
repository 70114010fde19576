//! Both sides of a bearer. The ciphered octets are those of OpenSSL, `enc -aes-128-ctr`, under the key that Python's `hmac`
//! derives from 32 octets 0x11.

ghost use Rattle.pdcp_pdu.specs.DataPdu.{IsPayload};

use dc_base::{
    Alg, Cell, DrbId, Item, KeyName, LegSet, Node, Octets, Plan, Seq, Shape, Side, SnLen,
};
use node_rules::OnLeg;
use pdcp_entity::{PdcpEntity, Setup};
use split_leg::Policies;
use std::alloc::Global;
use std::process::Abort;

/// What is set up at a node for bearer 5 with both legs.
fn made(rt: &impl Abort, alloc: Global, node: Node, alg: Alg, dup: bool) -> Setup {
    let shape = Shape {
        at_second: false,
        legs: LegSet::Split(Cell::Mcg),
        dup,
    };
    let item = Item::Set {
        id: DrbId::new(5).expect(rt, "identity"),
        n: SnLen::S12,
        first: 0,
        shape,
        threshold: 1000,
        policy: 0,
        key: KeyName {
            root: 0,
            side: Side::Master,
        },
        old: None,
    };
    let plan = Plan {
        g: 1,
        sec: Some(Node::A),
        items: Seq::new(alloc),
    };
    Setup::new(alloc, node, &plan, alg, &[0x11; 32], &item)
        .expect(rt, "memory")
        .expect(rt, "set up")
}

/// An entity of it before anything was submitted or came.
fn fresh(rt: &impl Abort, alloc: Global, node: Node, alg: Alg, dup: bool) -> PdcpEntity {
    PdcpEntity::new(alloc, made(rt, alloc, node, alg, dup))
}

/// An SDU of two octets.
fn sdu(rt: &impl Abort, alloc: Global, octets: &[u8; 2]) -> Octets
    ensures { IsPayload result }
{
    Octets::from_slice(alloc, octets).expect(rt, "memory")
}

/// Submits an SDU, which has this COUNT.
fn submits(rt: &impl Abort, alloc: Global, entity: &mut PdcpEntity, octets: &[u8; 2], count: u32) {
    let given = entity.take(sdu(rt, alloc, octets)).expect(rt, "a COUNT");
    assert_eq!(rt; given, count);
}

/// Holds an SDU, which then has a COUNT alone.
fn holds(rt: &impl Abort, alloc: Global, entity: &mut PdcpEntity, octets: &[u8; 2]) {
    entity.hold(sdu(rt, alloc, octets)).expect(rt, "memory");
    let given = entity.give_numbers().expect(rt, "a COUNT");
    assert_eq!(rt; given.len(), 1);
}

/// Whether these are one PDU on a leg, with this number, mark of a repeat and octets.
fn is_put(put: &Seq<OnLeg>, place: usize, cell: Cell, num: u32, repeat: bool, pdu: &[u8]) -> bool {
    match put.get(place) {
        None => false,
        Some(p) => {
            p.cell == cell && p.num == num && p.repeat == repeat && p.pdu.1.as_slice() == pdu
        }
    }
}

/// Sends these COUNTs.
fn sends(rt: &impl Abort, alloc: Global, entity: &mut PdcpEntity, counts: &[u32]) -> Seq<OnLeg> {
    let policies = Policies::new(Vec::new(alloc));
    entity.send_counts(&policies, counts).expect(rt, "memory")
}

/// Sends again all that is kept.
fn sends_again(rt: &impl Abort, alloc: Global, entity: &mut PdcpEntity) -> Seq<OnLeg> {
    let policies = Policies::new(Vec::new(alloc));
    entity.send_kept(&policies).expect(rt, "memory")
}

/// Sends a status report.
fn reports(rt: &impl Abort, alloc: Global, entity: &mut PdcpEntity) -> Seq<OnLeg> {
    let policies = Policies::new(Vec::new(alloc));
    entity.send_report(&policies).expect(rt, "memory")
}

/// How many SDUs go up when a PDU comes; none is told from what is no PDU.
fn takes(rt: &impl Abort, entity: &mut PdcpEntity, pdu: &[u8]) -> Option<usize> {
    match entity.take_pdu(pdu).expect(rt, "memory") {
        None => None,
        Some(ups) => Some(ups.len()),
    }
}

/// Confirms what the ack of a PDU on the MCG leg is about.
fn acks(rt: &impl Abort, entity: &mut PdcpEntity, num: u32) -> Option<u32> {
    let count = entity.leg_acked(Cell::Mcg, num);
    entity.confirm(count).expect(rt, "memory");
    count
}

/// Confirms these COUNTs.
fn confirms(rt: &impl Abort, entity: &mut PdcpEntity, counts: &[u32]) {
    entity.confirm_all(counts).expect(rt, "memory");
}

/// An SDU is sent at the master, in these octets, and taken at the terminal.
fn goes_down(rt: &impl Abort, alloc: Global, alg: Alg, pdu: &[u8]) {
    let mut anchor = fresh(rt, alloc, Node::M, alg, false);
    submits(rt, alloc, &mut anchor, b"hi", 0);
    let put = sends(rt, alloc, &mut anchor, &[0, 7]);
    assert_eq!(rt; put.len(), 1);
    assert!(rt; is_put(&put, 0, Cell::Mcg, 0, false, pdu));
    let mut terminal = fresh(rt, alloc, Node::T, alg, false);
    assert_eq!(rt; takes(rt, &mut terminal, pdu), Some(1));
    assert_eq!(rt; terminal.rx_deliv(), 1);
}

#[test]
fn pdus_in_clear_and_ciphered(rt: HostRuntime) {
    goes_down(&rt, rt.alloc(), Alg::Nea0, &[0x80, 0x00, 0x68, 0x69]);
    goes_down(&rt, rt.alloc(), Alg::Nea2, &[0x80, 0x00, 0xb8, 0x4f]);
}

#[test]
fn a_report_confirms(rt: HostRuntime) {
    let alloc = rt.alloc();
    let mut terminal = fresh(&rt, alloc, Node::T, Alg::Nea0, false);
    submits(&rt, alloc, &mut terminal, b"hi", 0);
    let put = reports(&rt, alloc, &mut terminal);
    assert!(rt; is_put(&put, 0, Cell::Mcg, 0, false, &[0, 0, 0, 0, 0]));
    assert_eq!(rt; takes(&rt, &mut terminal, &[0, 0, 0, 0, 1]), Some(0));
    assert_eq!(rt; terminal.low(), 1);
    assert_eq!(rt; takes(&rt, &mut terminal, &[0]), None);
}

#[test]
fn copies_and_repeats(rt: HostRuntime) {
    let alloc = rt.alloc();
    let mut anchor = fresh(&rt, alloc, Node::M, Alg::Nea0, true);
    holds(&rt, alloc, &mut anchor, b"hi");
    let pdu = [0x80, 0x00, 0x68, 0x69];
    let put = sends(&rt, alloc, &mut anchor, &[0]);
    assert!(rt; is_put(&put, 0, Cell::Mcg, 0, false, &pdu));
    assert!(rt; is_put(&put, 1, Cell::Scg, 0, false, &pdu));
    anchor.fail_scg();
    let put = sends_again(&rt, alloc, &mut anchor);
    assert!(rt; is_put(&put, 0, Cell::Mcg, 1, true, &pdu));
    assert_eq!(rt; put.len(), 1);
}

#[test]
fn confirmed_counts(rt: HostRuntime) {
    let alloc = rt.alloc();
    let mut anchor = fresh(&rt, alloc, Node::M, Alg::Nea0, false);
    submits(&rt, alloc, &mut anchor, b"hi", 0);
    submits(&rt, alloc, &mut anchor, b"yo", 1);
    let _put = sends_again(&rt, alloc, &mut anchor);
    assert_eq!(rt; acks(&rt, &mut anchor, 0), Some(0));
    assert_eq!(rt; anchor.low(), 1);
    confirms(&rt, &mut anchor, &[7, 1]);
    assert_eq!(rt; anchor.low(), 2);
}

/// Takes an entity apart and makes it again without what was submitted, in a new generation.
fn moved(rt: &impl Abort, alloc: Global, entity: PdcpEntity, setup: Setup) -> PdcpEntity {
    let (before, mut tx, rx) = entity.freeze().expect(rt, "memory");
    tx.kept = Seq::new(alloc);
    let mut entity = PdcpEntity::adopt(before, tx, rx).expect(rt, "memory");
    assert!(rt; entity.setup().n() == setup.n());
    entity.renew(setup);
    entity
}

#[test]
fn an_entity_is_taken_over(rt: HostRuntime) {
    let alloc = rt.alloc();
    let before = fresh(&rt, alloc, Node::M, Alg::Nea2, false);
    let setup = made(&rt, alloc, Node::M, Alg::Nea2, true);
    let after = moved(&rt, alloc, before, setup);
    assert!(rt; after.setup().shape().dup);
}
