//! The lines round the turns of a made script.

ghost use Rattle.std.specs.Prelude.{◌≡◌};
ghost use Rattle.made_scripts.specs.Scripts.{closing as closing_lines, made_header, opening as opening_lines};
ghost use Rattle.made_scripts.specs.Turns.{mxm, sxs};

use dc_base::{Alg, Cell, DrbId, Event, Header, LegSet, Node, Shape, SnLen};
use script_text::Scripted;

/// The identity of the one bearer: 1.
pub(crate) fn bearer() -> DrbId
    ensures { result ≡ 1 }
{
    match DrbId::new(1) {
        Some(id) => id,
        None => unreachable!(),
    }
}

/// Its first shape: anchor and only leg at the master.
const MM: Shape = Shape {
    at_second: false,
    legs: LegSet::Mcg,
    dup: false,
};

/// Its anchor at the master, and both legs.
pub(crate) fn mxm() -> Shape
    ensures { result ≡ mxm }
{
    Shape {
        at_second: false,
        legs: LegSet::Split(Cell::Mcg),
        dup: false,
    }
}

/// Its anchor at the secondary node, and both legs.
pub(crate) fn sxs() -> Shape
    ensures { result ≡ sxs }
{
    Shape {
        at_second: true,
        legs: LegSet::Split(Cell::Scg),
        dup: false,
    }
}

/// The first line: 128-NEA2, no SN Counter drawn, a root key of 32 octets 5a.
pub fn made_header() -> Header
    ensures { result ≡ made_header }
{
    Header {
        alg: Alg::Nea2,
        used: 0,
        root: [0x5a; 32],
    }
}

/// The lines before the turns: a bearer is set up, a secondary node is added, the bearer gets both legs.
pub fn opening() -> [Scripted; 6]
    ensures { result ≡ opening_lines }
{
    let id = bearer();
    let bearer = Event::Bearer {
        id,
        n: SnLen::S18,
        first: 0,
        shape: MM,
        threshold: 0,
        policy: 0,
    };
    let split = Event::Reshape { id, shape: mxm() };
    [
        Scripted::One(bearer),
        Scripted::Drain,
        Scripted::One(Event::Add { node: Node::A }),
        Scripted::Drain,
        Scripted::One(split),
        Scripted::Drain,
    ]
}

/// The lines after the turns: what is under way comes in, and what was lost is sent again.
pub fn closing() -> [Scripted; 3]
    ensures { result ≡ closing_lines }
{
    [
        Scripted::Drain,
        Scripted::One(Event::Recover { id: bearer() }),
        Scripted::Drain,
    ]
}
