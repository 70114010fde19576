//! Nodes, links, legs, shapes and the names of keys.

ghost use Rattle.std.specs.Prelude.{◌≡◌, ℕ, ◌<◌};
ghost use Rattle.dc_base.specs.Nodes.{node_number, is_secondary, opposite, is_mm};
ghost use Rattle.dc_base.specs.Links.{all_links, is_ordered, is_tunnel, class_number, link_number};

/// The direction of traffic: from the terminal, or to it.
#[derive(Clone, Copy, Debug, PartialEq, Eq, PartialOrd, Ord)]
pub enum Dir {
    Ul,
    Dl,
}

/// A node: the terminal, the master node, and the two secondary nodes (TS 37.340, 3.1).
#[derive(Clone, Copy, Debug, PartialEq, Eq, PartialOrd, Ord)]
pub enum Node {
    T,
    M,
    A,
    B,
}

/// A cell group, and the leg over it: the master's or the secondary's (TS 37.340, 3.1).
#[derive(Clone, Copy, Debug, PartialEq, Eq, PartialOrd, Ord)]
pub enum Cell {
    Mcg,
    Scg,
}

/// A ciphering algorithm: none, or 128-NEA2 (TS 33.501, 5.11.1.1).
#[derive(Clone, Copy, Debug, PartialEq, Eq)]
pub enum Alg {
    Nea0,
    Nea2,
}

/// The legs of a bearer: one, or both with the primary one named (TS 38.323, 5.2.1).
#[derive(Clone, Copy, Debug, PartialEq, Eq)]
pub enum LegSet {
    Mcg,
    Scg,
    Split(Cell),
}

/// Whose key it is: the master's, or K_SN of an SN Counter (TS 33.501, 6.10.3).
#[derive(Clone, Copy, Debug, PartialEq, Eq, PartialOrd, Ord, Hash)]
pub enum Side {
    Master,
    Second(u16),
}

/// What a secondary node may ask the master for (TS 37.340, 10.3 to 10.5).
#[derive(Clone, Copy, Debug, PartialEq, Eq)]
pub enum Want {
    Rekey,
    Change,
    Release,
}

/// The class of a link: control (RRC, Xn-C), the core's feed, an air leg, a tunnel (Xn-U).
#[derive(Clone, Copy, Debug, PartialEq, Eq)]
pub enum Class {
    Ctl,
    Feed,
    Air,
    Tun,
}

/// Where the anchor of a bearer is, which legs it has, and whether its PDUs are duplicated.
#[derive(Clone, Copy, Debug, PartialEq, Eq)]
pub struct Shape {
    /// The anchor is at the secondary node, and not at the master.
    pub at_second: bool,
    /// The legs.
    pub legs: LegSet,
    /// Duplication is active (TS 38.323, 5.11). It is false unless there are two legs.
    pub dup: bool,
}

/// The name of a key.
#[derive(Clone, Copy, Debug, PartialEq, Eq, PartialOrd, Ord, Hash)]
pub struct KeyName {
    /// The number of the root key, from 0.
    pub root: u32,
    /// The master's key of that root, or one of its K_SN.
    pub side: Side,
}

/// A link: its sender, its receiver and its class.
#[derive(Clone, Copy, Debug, PartialEq, Eq)]
pub struct LinkId {
    pub from: Node,
    pub to: Node,
    pub class: Class,
}

impl Dir {
    /// The other direction.
    pub fn opposite(self) -> Dir
        ensures { result ≡ opposite self }
    {
        match self {
            Dir::Ul => Dir::Dl,
            Dir::Dl => Dir::Ul,
        }
    }
}

impl Node {
    /// A number by which nodes are told apart, 0 to 3.
    pub fn number(self) -> usize
        ensures value { result ≡ node_number self }
        ensures small { result < 4 }
    {
        match self {
            Node::T => 0,
            Node::M => 1,
            Node::A => 2,
            Node::B => 3,
        }
    }

    /// Whether it is one of the two secondary nodes.
    pub fn is_secondary(self) -> bool
        ensures { result ≡ is_secondary self }
    {
        match self {
            Node::T => false,
            Node::M => false,
            Node::A => true,
            Node::B => true,
        }
    }
}

impl Class {
    /// A number by which classes are told apart, 0 to 3.
    fn number(self) -> usize
        ensures value { result ≡ class_number self }
        ensures small { result < 4 }
    {
        match self {
            Class::Ctl => 0,
            Class::Feed => 1,
            Class::Air => 2,
            Class::Tun => 3,
        }
    }

    /// Whether a link of this class keeps its order.
    pub fn is_ordered(self) -> bool
        ensures { result ≡ is_ordered self }
    {
        match self {
            Class::Ctl => true,
            Class::Feed => true,
            Class::Air => false,
            Class::Tun => false,
        }
    }

    /// Whether a link of this class may lose flights and repeat them.
    pub fn is_tunnel(self) -> bool
        ensures { result ≡ is_tunnel self }
    {
        match self {
            Class::Ctl => false,
            Class::Feed => false,
            Class::Air => false,
            Class::Tun => true,
        }
    }
}

impl Shape {
    /// Whether the anchor and the only leg are at the master: so no secondary node is needed.
    pub fn is_mm(self) -> bool
        ensures { result ≡ is_mm self }
    {
        !self.at_second
            && match self.legs {
                LegSet::Mcg => true,
                LegSet::Scg => false,
                LegSet::Split(_) => false,
            }
    }
}

impl LinkId {
    /// The link of these ends and this class.
    pub fn new(from: Node, to: Node, class: Class) -> LinkId
        ensures { result ≡ record { from = from; to = to; class = class } }
    {
        LinkId { from, to, class }
    }

    /// A number by which links are told apart, below 64.
    pub fn number(self) -> usize
        ensures value { result ≡ link_number self }
        ensures small { result < 64 }
    {
        self.from.number() + 4 * self.to.number() + 16 * self.class.number()
    }

    /// The 22 links, in their order: control, feed, air, tunnels.
    pub fn all() -> [LinkId; 22]
        ensures { result ≡ all_links }
    {
        [
            LinkId::new(Node::M, Node::T, Class::Ctl),
            LinkId::new(Node::T, Node::M, Class::Ctl),
            LinkId::new(Node::M, Node::A, Class::Ctl),
            LinkId::new(Node::A, Node::M, Class::Ctl),
            LinkId::new(Node::M, Node::B, Class::Ctl),
            LinkId::new(Node::B, Node::M, Class::Ctl),
            LinkId::new(Node::M, Node::A, Class::Feed),
            LinkId::new(Node::A, Node::M, Class::Feed),
            LinkId::new(Node::M, Node::B, Class::Feed),
            LinkId::new(Node::B, Node::M, Class::Feed),
            LinkId::new(Node::M, Node::T, Class::Air),
            LinkId::new(Node::T, Node::M, Class::Air),
            LinkId::new(Node::A, Node::T, Class::Air),
            LinkId::new(Node::T, Node::A, Class::Air),
            LinkId::new(Node::B, Node::T, Class::Air),
            LinkId::new(Node::T, Node::B, Class::Air),
            LinkId::new(Node::M, Node::A, Class::Tun),
            LinkId::new(Node::A, Node::M, Class::Tun),
            LinkId::new(Node::M, Node::B, Class::Tun),
            LinkId::new(Node::B, Node::M, Class::Tun),
            LinkId::new(Node::A, Node::B, Class::Tun),
            LinkId::new(Node::B, Node::A, Class::Tun),
        ]
    }
}
