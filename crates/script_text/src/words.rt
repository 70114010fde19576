//! The fixed words of a line, and the texts that are made of several of them.

ghost use Rattle.std.specs.Prelude.{◌≡◌, ℕ, ◌++◌, ◌∷◌, [], List, OnOk};
ghost use Rattle.transcript.specs.Words.{dir_word, node_word, alg_word, sn_word, class_word, cell_word, legs_word, link_word, shape_word, side_word, key_word, want_word, state_word, refusal_word, cause_word};

use dc_base::{
    Alg, Cell, Class, Dir, KeyName, LegSet, LinkId, Memory, Node, Octets, Refusal, Shape, Side,
    SnLen, Want, Word,
};
use dc_text::{write_decimal, write_text};

/// Writes a link: its sender and its receiver, a dot, its class.
pub fn write_link(out: &mut Octets, link: LinkId) -> Result<(), Memory>
    ensures { OnOk result (out.new ≡ out.old ++ link_word link) }
{
    write_text(out, of_node(link.from))?;
    write_text(out, of_node(link.to))?;
    write_text(out, ".")?;
    write_text(out, of_class(link.class))
}

/// Writes a shape: its anchor, its legs, and a `d` for duplication.
pub fn write_shape(out: &mut Octets, shape: Shape) -> Result<(), Memory>
    ensures { OnOk result (out.new ≡ out.old ++ shape_word shape) }
{
    write_text(out, if shape.at_second { "s" } else { "m" })?;
    write_text(out, of_legs(shape.legs))?;
    write_text(out, if shape.dup { "d" } else { "" })
}

/// Writes the name of a key: `mR` for the master's of root R, `sR.C` for K_SN of SN Counter C.
pub fn write_key(out: &mut Octets, key: KeyName) -> Result<(), Memory>
    ensures { OnOk result (out.new ≡ out.old ++ key_word key) }
{
    match key.side {
        Side::Master => {
            write_text(out, "m")?;
            write_decimal(out, u64::from(key.root))
        }
        Side::Second(counter) => {
            write_text(out, "s")?;
            write_decimal(out, u64::from(key.root))?;
            write_text(out, ".")?;
            write_decimal(out, u64::from(counter))
        }
    }
}

/// The word of a direction.
pub fn of_dir(word: Dir) -> &'static str
    ensures { result.now ≡ dir_word word }
{
    match word {
        Dir::Ul => "ul",
        Dir::Dl => "dl",
    }
}

/// The word of a node.
pub fn of_node(word: Node) -> &'static str
    ensures { result.now ≡ node_word word }
{
    match word {
        Node::T => "t",
        Node::M => "m",
        Node::A => "a",
        Node::B => "b",
    }
}

/// The word of an algorithm.
pub fn of_alg(word: Alg) -> &'static str
    ensures { result.now ≡ alg_word word }
{
    match word {
        Alg::Nea0 => "nea0",
        Alg::Nea2 => "nea2",
    }
}

/// The word of a length of sequence numbers.
pub fn of_sn_length(word: SnLen) -> &'static str
    ensures { result.now ≡ sn_word word }
{
    match word {
        SnLen::S12 => "12",
        SnLen::S18 => "18",
    }
}

/// The word of a class of links.
pub fn of_class(word: Class) -> &'static str
    ensures { result.now ≡ class_word word }
{
    match word {
        Class::Ctl => "ctl",
        Class::Feed => "feed",
        Class::Air => "air",
        Class::Tun => "tun",
    }
}

/// The word of the legs: `m` or `s` for one, `xm` or `xs` for both, by the primary one.
fn of_legs(legs: LegSet) -> &'static str
    ensures { result.now ≡ legs_word legs }
{
    match legs {
        LegSet::Mcg => "m",
        LegSet::Scg => "s",
        LegSet::Split(Cell::Mcg) => "xm",
        LegSet::Split(Cell::Scg) => "xs",
    }
}

/// The word of what a secondary node may ask for.
pub fn of_want(word: Want) -> &'static str
    ensures { result.now ≡ want_word word }
{
    match word {
        Want::Rekey => "rekey",
        Want::Change => "change",
        Want::Release => "release",
    }
}

/// The word of a state.
pub fn of_state(on: bool) -> &'static str
    ensures { result.now ≡ state_word on }
{
    if on { "on" } else { "off" }
}

/// The word of a refusal of an event.
pub fn of_refusal(word: Refusal) -> &'static str
    ensures { result.now ≡ refusal_word word }
{
    match word {
        Refusal::NoBearer => "nobearer",
        Refusal::BearerThere => "bearerthere",
        Refusal::Busy => "busy",
        Refusal::NoSecondary => "nosecondary",
        Refusal::SecondaryThere => "secondarythere",
        Refusal::SameShape => "sameshape",
        Refusal::IdSpent => "idspent",
        Refusal::CounterSpent => "counterspent",
        Refusal::RootUsed => "rootused",
        Refusal::NoFlight => "noflight",
        Refusal::NotFirst => "notfirst",
        Refusal::NotTunnel => "nottunnel",
        Refusal::Aged => "aged",
        Refusal::Full => "full",
        Refusal::Exhausted => "exhausted",
        Refusal::NoPolicy => "nopolicy",
    }
}

/// The word of a refusal between nodes.
pub fn of_cause(word: Word) -> &'static str
    ensures { result.now ≡ cause_word word }
{
    match word {
        Word::Busy => "busy",
        Word::NoSecondary => "nosecondary",
        Word::CounterSpent => "counterspent",
        Word::Rejected => "rejected",
    }
}
