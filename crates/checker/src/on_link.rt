//! What may stand as a consequence, and on which link.

ghost use Rattle.std.specs.Prelude.{◌≡◌, if◌then◌else◌, is_none, is_some};
ghost use Rattle.dc_base.specs.Links.{class_number, is_link, joins};
ghost use Rattle.dc_base.specs.Nodes.{is_same_node};
ghost use Rattle.dc_base.specs.declared.nodes.Class.TheVariants as class;
ghost use Rattle.dc_base.specs.declared.nodes.Node.TheVariants.{M, T};
ghost use Rattle.claims.specs.Links.{is_class};
ghost use Rattle.claims.specs.OnLink.{is_consequence, record_fits};
ghost use Rattle.claims.specs.Past.{Past};
ghost use Rattle.pdcp_pdu.specs.DataPdu.{is_data};
ghost use Rattle.checker.specs.Decided.{fits_link, is_on_link};

use dc_base::{Class, Flight, Line, LinkId, Node, Rec, Tag};
use pdcp_pdu::is_data;

/// Whether a line is a note or a send.
pub fn is_consequence(line: &Line) -> bool
    ensures { (p : Past) → result ≡ is_consequence p line.now }
{
    match line {
        Line::Note(_) => true,
        Line::Send(_, _) => true,
        Line::Event(_) => false,
        Line::Answer(_) => false,
    }
}

/// Whether a send is on one of the 22 links, and fits it.
pub fn is_on_link(line: &Line) -> bool
    ensures { (p : Past) → result ≡ is_on_link p line.now }
{
    match line {
        Line::Send(link, flight) => is_link(*link) && fits_link(*link, flight),
        _ => true,
    }
}

/// Whether it is one of the 22 links.
fn is_link(link: LinkId) -> bool
    ensures { result ≡ is_link link }
{
    match link.class {
        Class::Ctl => joins_control(link.from, link.to),
        Class::Feed => joins_feed(link.from, link.to),
        Class::Air => joins_air(link.from, link.to),
        Class::Tun => joins_tunnel(link.from, link.to),
    }
}

/// Whether control goes between the two nodes: the master is one of them.
fn joins_control(sender: Node, receiver: Node) -> bool
    ensures { result ≡ joins class.Ctl sender receiver }
{
    match sender {
        Node::T => match receiver {
            Node::T => false,
            Node::M => true,
            Node::A => false,
            Node::B => false,
        },
        Node::M => match receiver {
            Node::T => true,
            Node::M => false,
            Node::A => true,
            Node::B => true,
        },
        Node::A => match receiver {
            Node::T => false,
            Node::M => true,
            Node::A => false,
            Node::B => false,
        },
        Node::B => match receiver {
            Node::T => false,
            Node::M => true,
            Node::A => false,
            Node::B => false,
        },
    }
}

/// Whether the core's feed goes between the two nodes: the master and a secondary node.
fn joins_feed(sender: Node, receiver: Node) -> bool
    ensures { result ≡ joins class.Feed sender receiver }
{
    match sender {
        Node::T => match receiver {
            Node::T => false,
            Node::M => false,
            Node::A => false,
            Node::B => false,
        },
        Node::M => receiver.is_secondary(),
        Node::A => match receiver {
            Node::T => false,
            Node::M => true,
            Node::A => false,
            Node::B => false,
        },
        Node::B => match receiver {
            Node::T => false,
            Node::M => true,
            Node::A => false,
            Node::B => false,
        },
    }
}

/// Whether an air leg goes between the two nodes: the terminal is one of them.
fn joins_air(sender: Node, receiver: Node) -> bool
    ensures { result ≡ joins class.Air sender receiver }
{
    match sender {
        Node::T => match receiver {
            Node::T => false,
            Node::M => true,
            Node::A => true,
            Node::B => true,
        },
        Node::M => is_terminal(receiver),
        Node::A => is_terminal(receiver),
        Node::B => is_terminal(receiver),
    }
}

/// Whether a tunnel goes between the two nodes: two nodes of the network.
fn joins_tunnel(sender: Node, receiver: Node) -> bool
    ensures { result ≡ joins class.Tun sender receiver }
{
    match sender {
        Node::T => match receiver {
            Node::T => false,
            Node::M => false,
            Node::A => false,
            Node::B => false,
        },
        Node::M => receiver.is_secondary(),
        Node::A => match receiver {
            Node::T => false,
            Node::M => true,
            Node::A => false,
            Node::B => true,
        },
        Node::B => match receiver {
            Node::T => false,
            Node::M => true,
            Node::A => true,
            Node::B => false,
        },
    }
}

/// Whether it is the terminal.
fn is_terminal(node: Node) -> bool
    ensures { result ≡ is_same_node node T }
{
    match node {
        Node::T => true,
        Node::M => false,
        Node::A => false,
        Node::B => false,
    }
}

/// Whether it is the master.
fn is_master(node: Node) -> bool
    ensures { result ≡ is_same_node node M }
{
    match node {
        Node::T => false,
        Node::M => true,
        Node::A => false,
        Node::B => false,
    }
}

/// Whether a link is of this class.
fn is_class(wanted: Class, link: LinkId) -> bool
    ensures { result ≡ is_class wanted link }
{
    class_number(link.class) == class_number(wanted)
}

/// A number by which classes are told apart.
fn class_number(class: Class) -> u8
    ensures { result ≡ class_number class }
{
    match class {
        Class::Ctl => 0,
        Class::Feed => 1,
        Class::Air => 2,
        Class::Tun => 3,
    }
}

/// Whether the link is of the class of the flight, and the flight is formed as it has to be.
fn fits_link(link: LinkId, flight: &Flight) -> bool
    ensures { result ≡ fits_link link flight.now }
{
    match flight {
        Flight::Air { tag, pdu, .. } => is_class(Class::Air, link)
            && is_tagged(*tag, pdu.as_slice()),
        Flight::Ack { .. } => is_class(Class::Air, link),
        Flight::Tun { .. } => is_class(Class::Tun, link),
        Flight::Sdu { .. } => is_class(Class::Feed, link) && is_master(link.from),
        Flight::End { .. } => is_class(Class::Feed, link) && is_master(link.from),
        Flight::Told { .. } => is_class(Class::Feed, link) && is_master(link.to),
        Flight::Ctl(rec) => is_class(Class::Ctl, link) && record_fits(link, rec),
    }
}

/// Whether a PDU has a COUNT beside it if it is a data PDU, and none if it is a control PDU.
fn is_tagged(tag: Tag, pdu: &[u8]) -> bool
    ensures { result ≡ (if is_data pdu.now then is_some tag else is_none tag) }
{
    if is_data(pdu) {
        tag.get().is_some()
    } else {
        tag.get().is_none()
    }
}

/// Whether a record goes between the ends that it has: control of the terminal, or between master and secondary.
fn record_fits(link: LinkId, rec: &Rec) -> bool
    ensures { result ≡ record_fits link rec.now }
{
    match rec {
        Rec::Reconf { .. } => is_master(link.from) && is_terminal(link.to),
        Rec::Rcomp { .. } => is_terminal(link.from) && is_master(link.to),
        Rec::Scgf { .. } => is_terminal(link.from) && is_master(link.to),
        Rec::Recov { .. } => is_master(link.from),
        Rec::Recovd { .. } => is_master(link.to),
        Rec::Addreq { .. } => link.to.is_secondary(),
        Rec::Addack { .. } => link.from.is_secondary(),
        Rec::Addrej { .. } => link.from.is_secondary(),
        Rec::Modreq { .. } => link.to.is_secondary(),
        Rec::Modack { .. } => link.from.is_secondary(),
        Rec::Modrej { .. } => link.from.is_secondary(),
        Rec::Recfg { .. } => link.to.is_secondary(),
        Rec::Relreq { .. } => link.to.is_secondary(),
        Rec::Relack { .. } => link.from.is_secondary(),
        Rec::Relrej { .. } => link.from.is_secondary(),
        Rec::Uecr { .. } => link.to.is_secondary(),
        Rec::Snst { .. } => link.from.is_secondary() || link.to.is_secondary(),
        Rec::Moved { .. } => link.from.is_secondary(),
        Rec::Scgn { .. } => link.to.is_secondary(),
        Rec::Modrqd => link.from.is_secondary(),
        Rec::Modcnf { .. } => link.to.is_secondary(),
        Rec::Modref { .. } => link.to.is_secondary(),
        Rec::Chgrqd => link.from.is_secondary(),
        Rec::Chgcnf { .. } => link.to.is_secondary(),
        Rec::Chgref { .. } => link.to.is_secondary(),
        Rec::Relrqd => link.from.is_secondary(),
        Rec::Relcnf { .. } => link.to.is_secondary(),
    }
}
