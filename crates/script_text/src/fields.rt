//! The fields of a line, and the line that several of them make.

ghost use Rattle.std.specs.Prelude.{◌≡◌, ◌++◌, map, OnOk};
ghost use Rattle.std.specs.List.{join_with_byte};
ghost use Rattle.transcript.specs.Text.{item_text, plan_text, pair_text};
ghost use Rattle.transcript.specs.Words.{spaced, or_dash, octets_or_dash};
ghost use Rattle.std.specs.Fmt.{decimal};
ghost use Rattle.script_text.specs.Fields.{field_text};

use crate::words;
use dc_base::{
    Alg, Dir, DrbId, Gen, Item, KeyName, LinkId, Memory, Node, Octets, Plan, Refusal, Seq, Shape,
    SnLen, Tag, Want, Word,
};
use dc_text::{write_decimal, write_hex, write_text};

/// A field of a line.
#[derive(Clone, Copy)]
pub enum Field<'a> {
    /// A word that stands as it is.
    Text(&'a str),
    Number(u32),
    Id(DrbId),
    Root(&'a [u8; 32]),
    /// One octet or more.
    Payload(&'a Octets),
    /// Octets, or a dash for none.
    Bits(&'a Octets),
    Alg(Alg),
    Dir(Dir),
    Node(Node),
    MaybeNode(Option<Node>),
    Sn(SnLen),
    Shape(Shape),
    Link(LinkId),
    Key(KeyName),
    Want(Want),
    State(bool),
    Refusal(Refusal),
    Cause(Word),
    Tag(Tag),
}

/// Writes a field.
pub fn write_field(out: &mut Octets, field: &Field) -> Result<(), Memory>
    ensures { OnOk result (out.new ≡ out.old ++ field_text field.now) }
{
    match *field {
        Field::Text(text) => write_text(out, text),
        Field::Number(number) => write_decimal(out, u64::from(number)),
        Field::Id(id) => write_decimal(out, u64::from(id.get())),
        Field::Root(root) => write_hex(out, root),
        Field::Payload(octets) => write_hex(out, octets.as_slice()),
        Field::Bits(octets) => write_bits(out, octets),
        Field::Alg(alg) => write_text(out, words::of_alg(alg)),
        Field::Dir(dir) => write_text(out, words::of_dir(dir)),
        Field::Node(node) => write_text(out, words::of_node(node)),
        Field::MaybeNode(node) => write_text(out, node.map_or("-", words::of_node)),
        Field::Sn(length) => write_text(out, words::of_sn_length(length)),
        Field::Shape(shape) => words::write_shape(out, shape),
        Field::Link(link) => words::write_link(out, link),
        Field::Key(key) => words::write_key(out, key),
        Field::Want(want) => write_text(out, words::of_want(want)),
        Field::State(on) => write_text(out, words::of_state(on)),
        Field::Refusal(refusal) => write_text(out, words::of_refusal(refusal)),
        Field::Cause(word) => write_text(out, words::of_cause(word)),
        Field::Tag(tag) => write_tag(out, tag),
    }
}

/// Writes octets, or a dash for none.
fn write_bits(out: &mut Octets, octets: &Octets) -> Result<(), Memory>
    ensures { OnOk result (out.new ≡ out.old ++ octets_or_dash octets.now) }
{
    if octets.is_empty() {
        write_text(out, "-")
    } else {
        write_hex(out, octets.as_slice())
    }
}

/// Writes a tag's COUNT, or a dash for none.
fn write_tag(out: &mut Octets, tag: Tag) -> Result<(), Memory>
    ensures { OnOk result (out.new ≡ out.old ++ or_dash decimal tag) }
{
    match tag.get() {
        Some(count) => write_decimal(out, u64::from(count)),
        None => write_text(out, "-"),
    }
}

/// Writes fields with the separator between two.
pub fn write_joined(out: &mut Octets, separator: u8, fields: &[Field]) -> Result<(), Memory>
    ensures { OnOk result (out.new ≡ out.old ++ join_with_byte separator (map field_text fields.now)) }
{
    if let Some((first, rest)) = fields.split_first() {
        write_field(out, first)?;
        for field in rest {
            out.push(separator)?;
            write_field(out, field)?;
        }
    }
    Ok(())
}

/// Writes fields with one space between two.
pub fn write_spaced(out: &mut Octets, fields: &[Field]) -> Result<(), Memory>
    ensures { OnOk result (out.new ≡ out.old ++ spaced (map field_text fields.now)) }
{
    write_joined(out, b' ', fields)
}

/// Writes a plan: its generation, the secondary node after it, its items.
pub fn write_plan(out: &mut Octets, plan: &Plan) -> Result<(), Memory>
    ensures { OnOk result (out.new ≡ out.old ++ plan_text plan.now) }
{
    write_spaced(out, &[Field::Number(plan.g), Field::MaybeNode(plan.sec)])?;
    for item in plan.items.as_slice() {
        out.push(b' ')?;
        write_item(out, *item)?;
    }
    Ok(())
}

/// Writes an item of a plan.
fn write_item(out: &mut Octets, item: Item) -> Result<(), Memory>
    ensures { OnOk result (out.new ≡ out.old ++ item_text item) }
{
    match item {
        Item::Set {
            id,
            n,
            first,
            shape,
            threshold,
            policy,
            key,
            old,
        } => write_joined(
            out,
            b'/',
            &[
                Field::Id(id),
                Field::Sn(n),
                Field::Number(first),
                Field::Shape(shape),
                Field::Number(threshold),
                Field::Number(u32::from(policy)),
                Field::Key(key),
                Field::MaybeNode(old),
            ],
        ),
        Item::Unset { id } => {
            out.push(b'-')?;
            write_decimal(out, u64::from(id.get()))
        }
    }
}

/// Writes a bearer and a generation of it.
pub fn write_pair(out: &mut Octets, id: DrbId, g: Gen) -> Result<(), Memory>
    ensures { OnOk result (out.new ≡ out.old ++ pair_text (id, g)) }
{
    write_joined(out, b'/', &[Field::Id(id), Field::Number(g)])
}
