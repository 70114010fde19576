//! The values that a field writes as one word of a table, read.
#![tactic(auto, unfolding(script_text::specs::Spelling::value_of))]

ghost use Rattle.std.specs.Prelude.{◌≡◌, List, ℕ, IfSome, IfNone, IsTrue, refl};
ghost use Rattle.dc_base.specs.Links.{is_link};
ghost use Rattle.dc_base.specs.Nodes.{is_shape};
ghost use Rattle.transcript.specs.Words.{or_dash, dir_word, node_word, sn_word, link_word, shape_word, want_word, refusal_word, cause_word};
ghost use Rattle.transcript_text.specs.Grammar.{Allows, AnyNode, MaybeNode, Direction, Linked, Wanted, Refused, Cause, Sequence, Shaped};

use crate::spelling::Spelled;
use crate::words::lookup;
use dc_base::{Cell, Class, Dir, LegSet, LinkId, Memory, Node, Refusal, Shape, SnLen, Want, Word};
use std::alloc::Global;

const NODES: [(&str, Node); 4] = [
    ("t", Node::T),
    ("m", Node::M),
    ("a", Node::A),
    ("b", Node::B),
];

const MAYBE_NODES: [(&str, Option<Node>); 5] = [
    ("-", None),
    ("t", Some(Node::T)),
    ("m", Some(Node::M)),
    ("a", Some(Node::A)),
    ("b", Some(Node::B)),
];

const DIRECTIONS: [(&str, Dir); 2] = [("ul", Dir::Ul), ("dl", Dir::Dl)];

const SN_LENGTHS: [(&str, SnLen); 2] = [("12", SnLen::S12), ("18", SnLen::S18)];

const WANTS: [(&str, Want); 3] = [
    ("rekey", Want::Rekey),
    ("change", Want::Change),
    ("release", Want::Release),
];

const REFUSALS: [(&str, Refusal); 16] = [
    ("nobearer", Refusal::NoBearer),
    ("bearerthere", Refusal::BearerThere),
    ("busy", Refusal::Busy),
    ("nosecondary", Refusal::NoSecondary),
    ("secondarythere", Refusal::SecondaryThere),
    ("sameshape", Refusal::SameShape),
    ("idspent", Refusal::IdSpent),
    ("counterspent", Refusal::CounterSpent),
    ("rootused", Refusal::RootUsed),
    ("noflight", Refusal::NoFlight),
    ("notfirst", Refusal::NotFirst),
    ("nottunnel", Refusal::NotTunnel),
    ("aged", Refusal::Aged),
    ("full", Refusal::Full),
    ("exhausted", Refusal::Exhausted),
    ("nopolicy", Refusal::NoPolicy),
];

const CAUSES: [(&str, Word); 4] = [
    ("busy", Word::Busy),
    ("nosecondary", Word::NoSecondary),
    ("counterspent", Word::CounterSpent),
    ("rejected", Word::Rejected),
];

/// The twelve shapes: whether the anchor is at the secondary node, the legs, whether both have each PDU.
const SHAPES: [(&str, (bool, LegSet, bool)); 12] = [
    ("mm", (false, LegSet::Mcg, false)),
    ("ms", (false, LegSet::Scg, false)),
    ("sm", (true, LegSet::Mcg, false)),
    ("ss", (true, LegSet::Scg, false)),
    ("mxm", (false, LegSet::Split(Cell::Mcg), false)),
    ("mxs", (false, LegSet::Split(Cell::Scg), false)),
    ("sxm", (true, LegSet::Split(Cell::Mcg), false)),
    ("sxs", (true, LegSet::Split(Cell::Scg), false)),
    ("mxmd", (false, LegSet::Split(Cell::Mcg), true)),
    ("mxsd", (false, LegSet::Split(Cell::Scg), true)),
    ("sxmd", (true, LegSet::Split(Cell::Mcg), true)),
    ("sxsd", (true, LegSet::Split(Cell::Scg), true)),
];

/// The 22 links: sender, receiver, class.
const LINKS: [(&str, (Node, Node, Class)); 22] = [
    ("mt.ctl", (Node::M, Node::T, Class::Ctl)),
    ("tm.ctl", (Node::T, Node::M, Class::Ctl)),
    ("ma.ctl", (Node::M, Node::A, Class::Ctl)),
    ("am.ctl", (Node::A, Node::M, Class::Ctl)),
    ("mb.ctl", (Node::M, Node::B, Class::Ctl)),
    ("bm.ctl", (Node::B, Node::M, Class::Ctl)),
    ("ma.feed", (Node::M, Node::A, Class::Feed)),
    ("am.feed", (Node::A, Node::M, Class::Feed)),
    ("mb.feed", (Node::M, Node::B, Class::Feed)),
    ("bm.feed", (Node::B, Node::M, Class::Feed)),
    ("mt.air", (Node::M, Node::T, Class::Air)),
    ("tm.air", (Node::T, Node::M, Class::Air)),
    ("at.air", (Node::A, Node::T, Class::Air)),
    ("ta.air", (Node::T, Node::A, Class::Air)),
    ("bt.air", (Node::B, Node::T, Class::Air)),
    ("tb.air", (Node::T, Node::B, Class::Air)),
    ("ma.tun", (Node::M, Node::A, Class::Tun)),
    ("am.tun", (Node::A, Node::M, Class::Tun)),
    ("mb.tun", (Node::M, Node::B, Class::Tun)),
    ("bm.tun", (Node::B, Node::M, Class::Tun)),
    ("ab.tun", (Node::A, Node::B, Class::Tun)),
    ("ba.tun", (Node::B, Node::A, Class::Tun)),
];

impl Spelled for Node {
    ghost kind = { AnyNode };

    ghost word = { node_word };

    ghost in_range = { λ _. Unit {0} };

    fn of(_alloc: Global, field: &[u8]) -> Result<Option<Node>, Memory> {
        Ok(lookup(&NODES, field))
    }

    ghost allowed = { λ v _. (v, refl) };
}

impl Spelled for Option<Node> {
    ghost kind = { MaybeNode };

    ghost word = { or_dash node_word };

    ghost in_range = { λ _. Unit {0} };

    fn of(_alloc: Global, field: &[u8]) -> Result<Option<Option<Node>>, Memory> {
        Ok(lookup(&MAYBE_NODES, field))
    }

    ghost allowed = { λ v _. (v, refl) };
}

impl Spelled for Dir {
    ghost kind = { Direction };

    ghost word = { dir_word };

    ghost in_range = { λ _. Unit {0} };

    fn of(_alloc: Global, field: &[u8]) -> Result<Option<Dir>, Memory> {
        Ok(lookup(&DIRECTIONS, field))
    }

    ghost allowed = { λ v _. (v, refl) };
}

impl Spelled for SnLen {
    ghost kind = { Sequence };

    ghost word = { sn_word };

    ghost in_range = { λ _. Unit {0} };

    fn of(_alloc: Global, field: &[u8]) -> Result<Option<SnLen>, Memory> {
        Ok(lookup(&SN_LENGTHS, field))
    }

    ghost allowed = { λ v _. (v, refl) };
}

impl Spelled for Want {
    ghost kind = { Wanted };

    ghost word = { want_word };

    ghost in_range = { λ _. Unit {0} };

    fn of(_alloc: Global, field: &[u8]) -> Result<Option<Want>, Memory> {
        Ok(lookup(&WANTS, field))
    }

    ghost allowed = { λ v _. (v, refl) };
}

impl Spelled for Refusal {
    ghost kind = { Refused };

    ghost word = { refusal_word };

    ghost in_range = { λ _. Unit {0} };

    fn of(_alloc: Global, field: &[u8]) -> Result<Option<Refusal>, Memory> {
        Ok(lookup(&REFUSALS, field))
    }

    ghost allowed = { λ v _. (v, refl) };
}

impl Spelled for Word {
    ghost kind = { Cause };

    ghost word = { cause_word };

    ghost in_range = { λ _. Unit {0} };

    fn of(_alloc: Global, field: &[u8]) -> Result<Option<Word>, Memory> {
        Ok(lookup(&CAUSES, field))
    }

    ghost allowed = { λ v _. (v, refl) };
}

impl Spelled for Shape {
    ghost kind = { Shaped };

    ghost word = { shape_word };

    ghost in_range = { λ s. IsTrue (is_shape s) };

    fn of(_alloc: Global, field: &[u8]) -> Result<Option<Shape>, Memory> {
        Ok(shape_of(field))
    }

    ghost allowed = { λ v h. (v, h, refl) };
}

impl Spelled for LinkId {
    ghost kind = { Linked };

    ghost word = { link_word };

    ghost in_range = { λ l. IsTrue (is_link l) };

    fn of(_alloc: Global, field: &[u8]) -> Result<Option<LinkId>, Memory> {
        Ok(link_of(field))
    }

    ghost allowed = { λ v h. (v, h, refl) };
}

/// The shape of a word.
fn shape_of(field: &[u8]) -> Option<Shape>
    ensures some { IfSome result (λ shape. IsTrue (is_shape shape) × (field.now ≡ shape_word shape)) }
    ensures none { IfNone result (Allows Shaped field.now → ⊥) }
{
    match lookup(&SHAPES, field) {
        Some(row) => Some(Shape {
            at_second: row.0,
            legs: row.1,
            dup: row.2,
        }),
        None => None,
    }
}

/// The link of a word.
fn link_of(field: &[u8]) -> Option<LinkId>
    ensures some { IfSome result (λ link. IsTrue (is_link link) × (field.now ≡ link_word link)) }
    ensures none { IfNone result (Allows Linked field.now → ⊥) }
{
    match lookup(&LINKS, field) {
        Some(row) => Some(LinkId {
            from: row.0,
            to: row.1,
            class: row.2,
        }),
        None => None,
    }
}
