//! The values that a field of a script writes as one word, read.
#![tactic(auto, unfolding(crate::specs::Spelling::value_of))]

ghost use Rattle.std.specs.Prelude.{◌≡◌, ◌≢◌, ◌≤◌, ℕ, List, length, IfSome, IfNone, IsTrue, refl};
ghost use Rattle.std.proofs.Common.{arith};
ghost use Rattle.std.specs.Fmt.{decimal};
ghost use Rattle.hex.specs.Hex.{encode_lower, IsBytes};
ghost use Rattle.transcript.specs.Words.{node_word, alg_word, sn_word, link_word, shape_word, want_word, state_word};
ghost use Rattle.script_text.specs.Spelling.{value_of};
ghost use Rattle.dc_base.specs.Links.{is_link};
ghost use Rattle.dc_base.specs.Nodes.{is_secondary, is_shape};
ghost use Rattle.script_text.specs.Grammar.{command_word, Allows, Kind, AnyNode, Secondary, Sequence, Cipher, State, Wanted, Shaped, Linked, identity, root};
ghost use Rattle.script_text.specs.Scripts.{IsIdentity, IsRoot};

use crate::field_reader::number_of;
use dc_base::{Alg, Cell, Class, DrbId, LegSet, LinkId, Node, Shape, SnLen, Want};

/// A value that one field of a line writes.
pub trait Spelled: Copy {
    /// The sort of the field.
    ghost kind: { Kind };

    /// The field that writes a value.
    ghost word: { Self → List ℕ };

    /// The values that a script may have.
    ghost in_range: { Self → Type 0 };

    /// The value that the field writes. `None` exactly where it writes none that a script may have.
    fn of(field: &[u8]) -> Option<Self>
        ensures some { IfSome result (λ v. in_range v × (field.now ≡ word v)) }
        ensures none { IfNone result (Allows kind field.now → ⊥) };

    /// The field of such a value is of the sort.
    ghost allowed: { (v : Self) → in_range v → Allows kind (word v) };
}

/// A secondary node.
#[derive(Clone, Copy, Debug, PartialEq, Eq)]
pub struct SecondaryNode(pub Node);

/// The first word of a line.
#[derive(Clone, Copy, Debug, PartialEq, Eq)]
pub enum Command {
    Bearer,
    Shape,
    Drop,
    Add,
    Change,
    Release,
    Rekey,
    Recover,
    Report,
    Deny,
    Want,
    ScgFail,
    Ul,
    Dl,
    Step,
    Lose,
    Again,
    Drain,
}

const COMMANDS: [(&str, Command); 18] = [
    ("bearer", Command::Bearer),
    ("shape", Command::Shape),
    ("drop", Command::Drop),
    ("add", Command::Add),
    ("change", Command::Change),
    ("release", Command::Release),
    ("rekey", Command::Rekey),
    ("recover", Command::Recover),
    ("report", Command::Report),
    ("deny", Command::Deny),
    ("want", Command::Want),
    ("scgfail", Command::ScgFail),
    ("ul", Command::Ul),
    ("dl", Command::Dl),
    ("step", Command::Step),
    ("lose", Command::Lose),
    ("again", Command::Again),
    ("drain", Command::Drain),
];

const NODES: [(&str, Node); 4] = [
    ("t", Node::T),
    ("m", Node::M),
    ("a", Node::A),
    ("b", Node::B),
];

const SECONDARIES: [(&str, SecondaryNode); 2] = [
    ("a", SecondaryNode(Node::A)),
    ("b", SecondaryNode(Node::B)),
];

const SN_LENGTHS: [(&str, SnLen); 2] = [("12", SnLen::S12), ("18", SnLen::S18)];

const ALGS: [(&str, Alg); 2] = [("nea0", Alg::Nea0), ("nea2", Alg::Nea2)];

const STATES: [(&str, bool); 2] = [("on", true), ("off", false)];

const WANTS: [(&str, Want); 3] = [
    ("rekey", Want::Rekey),
    ("change", Want::Change),
    ("release", Want::Release),
];

/// The twelve shapes: whether the anchor is at the secondary node, the legs, whether both have each PDU.
const SHAPES: [(&str, (bool, LegSet, bool)); 12] = [
    ("mm", (false, LegSet::Mcg, false)),
    ("ms", (false, LegSet::Scg, false)),
    ("sm", (true, LegSet::Mcg, false)),
    ("ss", (true, LegSet::Scg, false)),
    ("mxm", (false, LegSet::Split(Cell::Mcg), false)),
    ("mxs", (false, LegSet::Split(Cell::Scg), false)),
    ("sxm", (true, LegSet::Split(Cell::Mcg), false)),
    ("sxs", (true, LegSet::Split(Cell::Scg), false)),
    ("mxmd", (false, LegSet::Split(Cell::Mcg), true)),
    ("mxsd", (false, LegSet::Split(Cell::Scg), true)),
    ("sxmd", (true, LegSet::Split(Cell::Mcg), true)),
    ("sxsd", (true, LegSet::Split(Cell::Scg), true)),
];

/// The 22 links: sender, receiver, class.
const LINKS: [(&str, (Node, Node, Class)); 22] = [
    ("mt.ctl", (Node::M, Node::T, Class::Ctl)),
    ("tm.ctl", (Node::T, Node::M, Class::Ctl)),
    ("ma.ctl", (Node::M, Node::A, Class::Ctl)),
    ("am.ctl", (Node::A, Node::M, Class::Ctl)),
    ("mb.ctl", (Node::M, Node::B, Class::Ctl)),
    ("bm.ctl", (Node::B, Node::M, Class::Ctl)),
    ("ma.feed", (Node::M, Node::A, Class::Feed)),
    ("am.feed", (Node::A, Node::M, Class::Feed)),
    ("mb.feed", (Node::M, Node::B, Class::Feed)),
    ("bm.feed", (Node::B, Node::M, Class::Feed)),
    ("mt.air", (Node::M, Node::T, Class::Air)),
    ("tm.air", (Node::T, Node::M, Class::Air)),
    ("at.air", (Node::A, Node::T, Class::Air)),
    ("ta.air", (Node::T, Node::A, Class::Air)),
    ("bt.air", (Node::B, Node::T, Class::Air)),
    ("tb.air", (Node::T, Node::B, Class::Air)),
    ("ma.tun", (Node::M, Node::A, Class::Tun)),
    ("am.tun", (Node::A, Node::M, Class::Tun)),
    ("mb.tun", (Node::M, Node::B, Class::Tun)),
    ("bm.tun", (Node::B, Node::M, Class::Tun)),
    ("ab.tun", (Node::A, Node::B, Class::Tun)),
    ("ba.tun", (Node::B, Node::A, Class::Tun)),
];

/// The value of the word that the field is, if it is one of the words.
fn lookup<T: Copy>(rows: &[(&str, T)], field: &[u8]) -> Option<T>
    ensures { result ≡ value_of rows.now field.now }
{
    for row in rows {
        if row.0.as_bytes() == field {
            return Some(row.1);
        }
    }
    None
}

/// The command of a word.
pub fn command_of(field: &[u8]) -> Option<Command>
    ensures some { IfSome result (λ command. field.now ≡ command_word command) }
    ensures none { IfNone result ((command : Command) → field.now ≢ command_word command) }
{
    lookup(&COMMANDS, field)
}

impl Spelled for Node {
    ghost kind = { AnyNode };

    ghost word = { node_word };

    ghost in_range = { λ _. Unit {0} };

    fn of(field: &[u8]) -> Option<Node> {
        lookup(&NODES, field)
    }

    ghost allowed = { λ v _. (v, refl) };
}

impl Spelled for SnLen {
    ghost kind = { Sequence };

    ghost word = { sn_word };

    ghost in_range = { λ _. Unit {0} };

    fn of(field: &[u8]) -> Option<SnLen> {
        lookup(&SN_LENGTHS, field)
    }

    ghost allowed = { λ v _. (v, refl) };
}

impl Spelled for Alg {
    ghost kind = { Cipher };

    ghost word = { alg_word };

    ghost in_range = { λ _. Unit {0} };

    fn of(field: &[u8]) -> Option<Alg> {
        lookup(&ALGS, field)
    }

    ghost allowed = { λ v _. (v, refl) };
}

impl Spelled for bool {
    ghost kind = { State };

    ghost word = { state_word };

    ghost in_range = { λ _. Unit {0} };

    fn of(field: &[u8]) -> Option<bool> {
        lookup(&STATES, field)
    }

    ghost allowed = { λ v _. (v, refl) };
}

impl Spelled for Want {
    ghost kind = { Wanted };

    ghost word = { want_word };

    ghost in_range = { λ _. Unit {0} };

    fn of(field: &[u8]) -> Option<Want> {
        lookup(&WANTS, field)
    }

    ghost allowed = { λ v _. (v, refl) };
}

impl Spelled for SecondaryNode {
    ghost kind = { Secondary };

    ghost word = { λ s. node_word s.0 };

    ghost in_range = { λ s. IsTrue (is_secondary s.0) };

    fn of(field: &[u8]) -> Option<SecondaryNode> {
        lookup(&SECONDARIES, field)
    }

    ghost allowed = { λ v h. (v.0, h, refl) };
}

impl Spelled for Shape {
    ghost kind = { Shaped };

    ghost word = { shape_word };

    ghost in_range = { λ s. IsTrue (is_shape s) };

    fn of(field: &[u8]) -> Option<Shape> {
        shape_of(field)
    }

    ghost allowed = { λ v h. (v, h, refl) };
}

impl Spelled for LinkId {
    ghost kind = { Linked };

    ghost word = { link_word };

    ghost in_range = { λ l. IsTrue (is_link l) };

    fn of(field: &[u8]) -> Option<LinkId> {
        link_of(field)
    }

    ghost allowed = { λ v h. (v, h, refl) };
}

impl Spelled for DrbId {
    ghost kind = { identity };

    ghost word = { decimal };

    ghost in_range = { IsIdentity };

    fn of(field: &[u8]) -> Option<DrbId> {
        DrbId::new(number_of(field, 1, 32)? as u8)
    }

    ghost allowed = { λ v h. (v, h.0, h.1, refl) };
}

impl Spelled for [u8; 32] {
    ghost kind = { root };

    ghost word = { encode_lower };

    ghost in_range = { IsRoot };

    fn of(field: &[u8]) -> Option<[u8; 32]> {
        root_of(field)
    }

    ghost allowed = { λ v h. (v, h.0, Prim.omega (arith, h.1), Prim.omega (arith, h.1), refl) };
}

/// The shape of a word.
fn shape_of(field: &[u8]) -> Option<Shape>
    ensures some { IfSome result (λ shape. IsTrue (is_shape shape) × (field.now ≡ shape_word shape)) }
    ensures none { IfNone result (Allows Shaped field.now → ⊥) }
{
    match lookup(&SHAPES, field) {
        Some(row) => Some(Shape {
            at_second: row.0,
            legs: row.1,
            dup: row.2,
        }),
        None => None,
    }
}

/// The link of a word.
fn link_of(field: &[u8]) -> Option<LinkId>
    ensures some { IfSome result (λ link. IsTrue (is_link link) × (field.now ≡ link_word link)) }
    ensures none { IfNone result (Allows Linked field.now → ⊥) }
{
    match lookup(&LINKS, field) {
        Some(row) => Some(LinkId {
            from: row.0,
            to: row.1,
            class: row.2,
        }),
        None => None,
    }
}

/// The root key that the field writes in 64 lower-case hexadecimal digits: what it decodes to is written as the field.
fn root_of(field: &[u8]) -> Option<[u8; 32]>
    ensures some { IfSome result (λ octets. IsRoot octets × (field.now ≡ encode_lower octets)) }
    ensures none { IfNone result (Allows root field.now → ⊥) }
{
    let mut octets = [0; 32];
    let _ = hex::decode_to_slice(field, &mut octets);
    if field == root_text(&octets).as_slice() {
        Some(octets)
    } else {
        None
    }
}

/// The 64 digits of a root key.
fn root_text(octets: &[u8; 32]) -> [u8; 64]
    ensures text { result ≡ encode_lower octets.now }
    ensures bytes { IsBytes octets.now }
    ensures size { length octets.now ≡ 32 }
{
    let mut text = [0; 64];
    let _ = hex::encode_to_slice(octets.as_slice(), &mut text);
    text
}
