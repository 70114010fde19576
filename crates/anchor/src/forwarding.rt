//! The forwarding tunnels from an anchor that gave its bearer up to the new one (TS 38.423, 8.2.2).

ghost use Rattle.std.specs.Prelude.{◌≡◌, ◌+◌, ◌<◌, ◌^◌, ◌∷◌, ◌++◌, [], None, if◌then◌else◌, length, map, IfOk, IfSome, OnOk};
ghost use Rattle.dc_base.specs.Count.{bits};
ghost use Rattle.dc_base.specs.Links.{link};
ghost use Rattle.dc_base.specs.Tunnel.{teid};
ghost use Rattle.node_rules.specs.Freezing.{closing, forward_end, forward_fresh, numbered, pieces, rest_of};
ghost use Rattle.anchor.specs.Paths.{after_pieces};

use dc_base::{
    Class, DrbId, Flight, Gen, LinkId, Memory, Node, Octets, Seq, SnLen, Tag, sn_of, teid_of,
};
use forward::ForwardOut;
use pdcp_entity::Setup;
use std::alloc::Global;
use std::marker::Model;

/// The longest SDU.
const LONGEST: usize = 9000;

/// How many forward numbers and generations there are.
const NUMBERS: u32 = 1 << 24;

/// The flight of a packet from a node to another.
fn flight(node: Node, target: Node, packet: Octets) -> (LinkId, Flight)
    ensures { result ≡ (link node target Class.Tun, Flight.Tun None packet) }
{
    let tag = Tag::none();
    (
        LinkId::new(node, target, Class::Tun),
        Flight::Tun { tag, packet },
    )
}

/// An open tunnel in one direction.
#[derive(Drop)]
pub(crate) struct Path {
    node: Node,
    target: Node,
    g: Gen,
    id: DrbId,
    n: SnLen,
    out: ForwardOut,
}

impl Model for Path {
    ghost use Rattle.std.specs.Prelude.{◌≡◌, false};
    ghost use Rattle.anchor.specs.Paths.{ForwardPath};

    ghost Value = { ForwardPath };

    ghost view = { λ a. record { tunnel = record { node = a.node; target = a.target; g = a.g; id = a.id; n = a.n; next = a.out.next }; teid = a.out.teid } };

    ghost invariant = { λ a. a.out.closed ≡ false };
}

impl Path {
    /// The tunnel of a kind to a node, in a generation below 2^24, before anything was sent in it.
    pub(crate) fn new(alloc: Global, setup: &Setup, target: Node, g: Gen, kind: u8) -> Path
        requires generation { g < 2 ^ 24 }
        requires kind { kind < 4 }
        ensures { result ≡ record { tunnel = record { node = setup.now.node; target = target; g = g; id = setup.now.id; n = setup.now.n; next = 0 }; teid = teid g setup.now.id kind } }
    {
        let id = setup.id();
        Path {
            node: setup.node(),
            target,
            g,
            id,
            n: setup.n(),
            out: ForwardOut::new(alloc, teid_of(g, id, kind)),
        }
    }

    /// An SDU is forwarded under the next number. A tunnel carries far fewer than 2^24 SDUs, each of at most 9000 octets; of
    /// another it says `Memory`.
    pub(crate) fn piece(
        &mut self,
        sn: Option<u32>,
        sdu: &[u8],
        sends: &mut Seq<(LinkId, Flight)>,
    ) -> Result<(), Memory>
        requires { IfSome sn (λ s. s < 2 ^ bits self.old.tunnel.n) }
        ensures teid { self.new.teid ≡ self.old.teid }
        ensures g { self.new.tunnel.g ≡ self.old.tunnel.g }
        ensures id { self.new.tunnel.id ≡ self.old.tunnel.id }
        ensures path { OnOk result (self.new ≡ after_pieces self.old 1) }
        ensures sends { OnOk result (sends.new ≡ sends.old ++ pieces self.old.tunnel self.old.teid self.old.tunnel.next ((sn, sdu.now) ∷ [])) }
    {
        if self.out.given() >= NUMBERS || sdu.len() > LONGEST {
            return Err(Memory);
        }
        let packet = self.out.next(self.n, sn, sdu)?;
        sends.push(flight(self.node, self.target, packet))?;
        Ok(())
    }

    /// SDUs with their COUNTs are forwarded, each with its SN.
    pub(crate) fn numbered(
        &mut self,
        entries: Seq<(u32, Octets)>,
        sends: &mut Seq<(LinkId, Flight)>,
    ) -> Result<(), Memory>
        ensures path { OnOk result (self.new ≡ after_pieces self.old (length entries)) }
        ensures sends { OnOk result (sends.new ≡ sends.old ++ pieces self.old.tunnel self.old.teid self.old.tunnel.next (numbered self.old.tunnel.n entries)) }
    {
        for (count, sdu) in entries.into_vec() {
            let sn = sn_of(self.n, count);
            self.piece(Some(sn), sdu.as_slice(), sends)?;
        }
        Ok(())
    }

    /// SDUs without COUNTs are forwarded.
    pub(crate) fn fresh(
        &mut self,
        sdus: Seq<Octets>,
        sends: &mut Seq<(LinkId, Flight)>,
    ) -> Result<(), Memory>
        ensures path { OnOk result (self.new ≡ after_pieces self.old (length sdus)) }
        ensures sends { OnOk result (sends.new ≡ sends.old ++ pieces self.old.tunnel self.old.teid self.old.tunnel.next (map (λ sdu. (None, sdu)) sdus)) }
    {
        for sdu in sdus.into_vec() {
            self.piece(None, sdu.as_slice(), sends)?;
        }
        Ok(())
    }

    /// The tunnel is closed: by the number of all SDUs, and an End Marker (TS 29.281, 7.3.2).
    pub(crate) fn close(self, sends: &mut Seq<(LinkId, Flight)>) -> Result<(), Memory>
        ensures { OnOk result (sends.new ≡ sends.old ++ closing self.tunnel self.teid self.tunnel.next) }
    {
        let Path {
            node,
            target,
            mut out,
            ..
        } = self;
        if out.given() >= NUMBERS {
            return Err(Memory);
        }
        let (total, end_marker) = out.close()?;
        sends.push(flight(node, target, total))?;
        sends.push(flight(node, target, end_marker))?;
        Ok(())
    }
}

impl Path {
    /// The downlink tunnel is closed if no SDU comes from the core any more, and else goes on.
    pub(crate) fn end_if(
        self,
        alloc: Global,
        last: bool,
        sends: &mut Seq<(LinkId, Flight)>,
    ) -> Result<Option<ForwardingTunnel>, Memory>
        requires { self.teid ≡ teid self.tunnel.g self.tunnel.id 1 }
        ensures rest { IfOk result (λ rest. rest ≡ rest_of self.tunnel last self.tunnel.next) }
        ensures sends { OnOk result (sends.new ≡ sends.old ++ (if last then closing self.tunnel self.teid self.tunnel.next else [])) }
    {
        if last {
            self.close(sends)?;
            return Ok(None);
        }
        Ok(Some(ForwardingTunnel { alloc, path: self }))
    }
}

/// The downlink tunnel from an anchor that gave its bearer up to the new one, while SDUs still come from the core. After a call
/// that answers `Memory` it is not used again.
#[derive(Drop)]
pub struct ForwardingTunnel {
    alloc: Global,
    path: Path,
}

impl Model for ForwardingTunnel {
    ghost use Rattle.std.specs.Prelude.{◌≡◌};
    ghost use Rattle.dc_base.specs.Tunnel.{teid};
    ghost use Rattle.node_rules.specs.Freezing.{Tunnel};

    ghost Value = { Tunnel };

    ghost view = { λ a. a.path.tunnel };

    ghost invariant = { λ a. a.path.teid ≡ teid a.path.tunnel.g a.path.tunnel.id 1 };
}

impl ForwardingTunnel {
    /// The generation of the change for which the anchor was frozen.
    pub fn generation(&self) -> Gen
        ensures { result ≡ self.now.g }
    {
        self.path.g
    }

    /// An SDU from the core is forwarded without an SN. A tunnel carries far fewer than 2^24 SDUs, each of at most 9000 octets;
    /// of another it says `Memory`.
    pub fn forward_fresh(&mut self, sdu: &[u8]) -> Result<Seq<(LinkId, Flight)>, Memory>
        ensures { IfOk result (λ sends. (self.new, sends) ≡ forward_fresh self.old sdu.now) }
    {
        let mut sends = Seq::new(self.alloc);
        self.path.piece(None, sdu, &mut sends)?;
        Ok(sends)
    }

    /// No SDU comes any more: the tunnel is closed (TS 29.281, 7.3.2).
    pub fn forward_end(self) -> Result<Seq<(LinkId, Flight)>, Memory>
        ensures { IfOk result (λ sends. sends ≡ forward_end self) }
    {
        let ForwardingTunnel { alloc, path } = self;
        let mut sends = Seq::new(alloc);
        path.close(&mut sends)?;
        Ok(sends)
    }
}
