//! A bearer as a node has it in one generation.

ghost use Rattle.std.specs.Prelude.{◌≡◌, ◌+◌, ◌<◌, ◌≤◌, ◌^◌, ◌++◌, fold, length, IfOk, OnOk};
ghost use Rattle.std.specs.List.{filter};
ghost use Rattle.node_rules.specs.Choices.{by_policies};
ghost use Rattle.node_rules.specs.Entity.{ciphered, direction_to, pdu_of};
ghost use Rattle.node_rules.specs.Sending.{send_one};
ghost use Rattle.node_rules.specs.Setup.{anchor_cell, has_cell, has_failed, has_leg_at, host_of, is_of, node_of, setup_of, with_failed_scg};
ghost use Rattle.pdcp_pdu.specs.Bitmap.{names};
ghost use Rattle.pdcp_pdu.specs.DataPdu.{IsPayload};
ghost use Rattle.split_leg.specs.Legs.{acked_count, leg_at, settled_on_both, with_ack, with_leg};
ghost use Rattle.split_leg.specs.Stored.{margins};

use crate::sending::send_one;
use dc_base::{
    Alg, Cell, Dir, DrbId, Gen, Item, Memory, Node, Octets, Plan, Seq, Shape, SnLen, Tag, sn_of,
};
use key_chain::k_upenc;
use nea2::{Aes128, nea};
use node_rules::OnLeg;
use pdcp_pdu::{encode_data, is_named};
use split_leg::{Legs, Policies};
use std::alloc::Global;
use std::marker::Model;

/// What the plan of a generation set of a bearer at a node, with the ciphering key made ready, and the legs of that generation.
#[derive(Drop)]
pub struct Setup {
    node: Node,
    sec: Option<Node>,
    g: Gen,
    id: DrbId,
    n: SnLen,
    first: u32,
    alg: Alg,
    key: [u8; 32],
    cipher: Aes128,
    legs: Legs,
    alloc: Global,
}

impl Model for Setup {
    ghost use Rattle.std.specs.Prelude.{◌≡◌, ◌<◌, ◌^◌};
    ghost use Rattle.key_chain.specs.Derived.{k_upenc};
    ghost use Rattle.node_rules.specs.Setup.{Setup as Bearer};

    ghost Value = { Bearer };

    ghost view = { λ a. record { node = a.node; sec = a.sec; g = a.g; id = a.id; n = a.n; first = a.first; alg = a.alg; key = a.key; legs = a.legs } };

    // The cipher is that of the key, and the generation fits a tunnel's identifier.
    ghost invariant = { λ a. (a.cipher ≡ k_upenc a.key a.alg) × (a.g < 2 ^ 24) };
}

impl Setup {
    /// What an item of a plan sets up at a node, under a key; `None` exactly for an item that drops. A run draws far fewer than
    /// 2^24 generations; of a later one it says `Memory`.
    pub fn new(
        alloc: Global,
        node: Node,
        plan: &Plan,
        alg: Alg,
        key: &[u8; 32],
        item: &Item,
    ) -> Result<Option<Setup>, Memory>
        ensures { IfOk result (λ made. made ≡ setup_of node plan.now alg key.now item.now) }
    {
        match item {
            Item::Set {
                id,
                n,
                first,
                shape,
                threshold,
                policy,
                ..
            } => {
                if plan.g >= 1 << 24 {
                    return Err(Memory);
                }
                Ok(Some(Setup {
                    node,
                    sec: plan.sec,
                    g: plan.g,
                    id: *id,
                    n: *n,
                    first: *first,
                    alg,
                    key: *key,
                    cipher: Aes128::new(&k_upenc(key, alg)),
                    legs: Legs::new(alloc, *shape, *threshold, *policy),
                    alloc,
                }))
            }
            Item::Unset { .. } => Ok(None),
        }
    }

    // The allocator of what is made for the bearer.
    pub(crate) fn alloc(&self) -> Global {
        self.alloc
    }

    /// The node at which it is set up.
    pub fn node(&self) -> Node
        ensures { result ≡ self.now.node }
    {
        self.node
    }

    /// The secondary node of the plan.
    pub fn sec(&self) -> Option<Node>
        ensures { result ≡ self.now.sec }
    {
        self.sec
    }

    /// The generation, below 2^24.
    pub fn g(&self) -> Gen
        ensures value { result ≡ self.now.g }
        ensures small { self.now.g < 2 ^ 24 }
    {
        self.g
    }

    /// The identity.
    pub fn id(&self) -> DrbId
        ensures { result ≡ self.now.id }
    {
        self.id
    }

    /// The length of the sequence numbers.
    pub fn n(&self) -> SnLen
        ensures { result ≡ self.now.n }
    {
        self.n
    }

    /// The COUNT of the first submission, in both directions.
    pub fn first(&self) -> u32
        ensures { result ≡ self.now.first }
    {
        self.first
    }

    /// The shape of the bearer.
    pub fn shape(&self) -> Shape
        ensures { result ≡ self.now.legs.shape }
    {
        self.legs.shape()
    }

    /// Whether this is of the bearer and the generation.
    pub fn is_of(&self, id: DrbId, g: Gen) -> bool
        ensures { result ≡ is_of self.now id g }
    {
        self.id == id && self.g == g
    }

    /// Whether the bearer has a leg over this cell group.
    pub fn has_cell(&self, cell: Cell) -> bool
        ensures { result ≡ has_cell self.now cell }
    {
        self.legs.has_leg(cell)
    }

    /// Whether the node marked the leg over this cell group as failed.
    pub fn has_failed(&self, cell: Cell) -> bool
        ensures { result ≡ has_failed self.now cell }
    {
        self.legs.has_failed(cell)
    }

    /// The cell group in which the anchor is.
    pub fn anchor_cell(&self) -> Cell
        ensures { result ≡ anchor_cell self.now.legs.shape }
    {
        if self.shape().at_second {
            Cell::Scg
        } else {
            Cell::Mcg
        }
    }

    /// The node of the leg that goes through a tunnel, if there is such a leg.
    pub fn host(&self) -> Option<Node>
        ensures { result ≡ host_of self.now }
    {
        let cell = match self.anchor_cell() {
            Cell::Mcg => Cell::Scg,
            Cell::Scg => Cell::Mcg,
        };
        if self.has_cell(cell) {
            self.node_of(cell)
        } else {
            None
        }
    }

    /// Whether the bearer has a leg over the cells of this node.
    pub fn has_leg_at(&self, node: Node) -> bool
        ensures { result ≡ has_leg_at self.now node }
    {
        let cell = match node {
            Node::M => Cell::Mcg,
            Node::T => Cell::Scg,
            Node::A => Cell::Scg,
            Node::B => Cell::Scg,
        };
        self.has_cell(cell) && self.node_of(cell) == Some(node)
    }

    // The node of a cell group: the master, or the secondary of the plan.
    fn node_of(&self, cell: Cell) -> Option<Node>
        ensures { result ≡ node_of self.now.sec cell }
    {
        match cell {
            Cell::Mcg => Some(Node::M),
            Cell::Scg => self.sec,
        }
    }

    // Takes the ack of a PDU on a leg, and answers the COUNT that it is about.
    pub(crate) fn acked(&mut self, cell: Cell, num: u32) -> Option<u32>
        ensures count { result ≡ acked_count (leg_at self.old.legs cell).pdus num }
        ensures after { self.new ≡ record self.old { legs = with_leg self.old.legs cell (with_ack (leg_at self.old.legs cell) num) } }
    {
        self.legs.acked(cell, num)
    }

    /// Marks the SCG leg as failed (TS 37.340, 7.7).
    pub fn fail_scg(&mut self)
        ensures { self.new ≡ with_failed_scg self.old }
    {
        self.legs.fail(Cell::Scg);
    }

    // The direction in which the node receives.
    fn direction_to(&self) -> Dir
        ensures { result ≡ direction_to self.now.node }
    {
        match self.node {
            Node::T => Dir::Dl,
            Node::M => Dir::Ul,
            Node::A => Dir::Ul,
            Node::B => Dir::Ul,
        }
    }

    // Octets under a COUNT, ciphered, or deciphered again (TS 38.323, 5.8).
    fn ciphered(&self, dir: Dir, count: u32, text: &[u8]) -> Result<Octets, Memory>
        requires { length text.now ≤ 9000 }
        ensures value { IfOk result (λ made. made ≡ ciphered self.now dir count text.now) }
        ensures len { IfOk result (λ made. length made ≡ length text.now) }
    {
        let mut octets = Vec::from_slice(self.alloc, text)?;
        nea(
            self.alg,
            &self.cipher,
            count,
            self.id,
            dir,
            octets.as_mut_slice(),
        );
        Ok(Octets::from_vec(octets))
    }

    // What a data PDU that came carries, deciphered under its COUNT.
    pub(crate) fn deciphered(&self, count: u32, body: &[u8]) -> Result<Octets, Memory>
        requires { length body.now ≤ 9000 }
        ensures { IfOk result (λ made. made ≡ ciphered self.now (direction_to self.now.node) count body.now) }
    {
        self.ciphered(self.direction_to(), count, body)
    }

    // The data PDU of an SDU with its COUNT.
    fn data_pdu(&self, count: u32, sdu: &[u8]) -> Result<Octets, Memory>
        requires { IsPayload sdu.now }
        ensures value { IfOk result (λ made. made ≡ pdu_of self.now (count, sdu.now)) }
        ensures len { IfOk result (λ made. length made ≤ 9003) }
    {
        let body = self.ciphered(self.direction_to().opposite(), count, sdu)?;
        encode_data(self.alloc, self.n, sn_of(self.n, count), body.as_slice())
    }

    // Puts a PDU on the legs of its route, in one send, and what was put behind the others.
    pub(crate) fn send(
        &mut self,
        policies: &Policies,
        tag: Tag,
        pdu: Octets,
        put: &mut Seq<OnLeg>,
    ) -> Result<(), Memory>
        requires { length pdu ≤ 65535 }
        ensures setup { OnOk result (self.new ≡ record self.old { legs = (send_one (by_policies (margins policies.now)) (tag, pdu) self.old.legs).0 }) }
        ensures put { OnOk result (put.new ≡ put.old ++ (send_one (by_policies (margins policies.now)) (tag, pdu) self.old.legs).1) }
        ensures len { self.new.n ≡ self.old.n }
    {
        send_one(&mut self.legs, policies, tag, pdu, put)
    }

    // Puts the data PDU of an SDU with its COUNT on the legs of its route, in one send.
    pub(crate) fn send_data(
        &mut self,
        policies: &Policies,
        count: u32,
        sdu: &[u8],
        put: &mut Seq<OnLeg>,
    ) -> Result<(), Memory>
        requires { IsPayload sdu.now }
        ensures setup { OnOk result (self.new ≡ record self.old { legs = (send_one (by_policies (margins policies.now)) (Some count, pdu_of self.old (count, sdu.now)) self.old.legs).0 }) }
        ensures put { OnOk result (put.new ≡ put.old ++ (send_one (by_policies (margins policies.now)) (Some count, pdu_of self.old (count, sdu.now)) self.old.legs).1) }
        ensures len { self.new.n ≡ self.old.n }
    {
        let pdu = self.data_pdu(count, sdu)?;
        self.send(policies, Tag::count(count), pdu, put)
    }

    // A COUNT is confirmed: its PDUs are outstanding no more.
    pub(crate) fn settle(&mut self, count: u32)
        ensures { self.new ≡ record self.old { legs = settled_on_both count (count + 1) self.old.legs } }
    {
        self.legs.settled_one(count);
    }
    // Each of these COUNTs that a status report names is confirmed, one after another.
    pub(crate) fn settle_named(&mut self, counts: &[u32], fmc: u32, bits: &[u8])
        ensures { self.new ≡ record self.old { legs = fold (λ legs c. settled_on_both c (c + 1) legs) self.old.legs (filter (names fmc bits.now) counts.now) } }
    {
        for count in counts {
            if is_named(fmc, bits, *count) {
                self.settle(*count);
            }
        }
    }

    // Each of these COUNTs is confirmed, one after another.
    pub(crate) fn settle_each(&mut self, counts: &[u32])
        ensures { self.new ≡ record self.old { legs = fold (λ legs c. settled_on_both c (c + 1) legs) self.old.legs counts.now } }
    {
        for count in counts {
            self.settle(*count);
        }
    }
}
