//! What comes of a step of an anchor of a secondary node.

ghost use Rattle.std.specs.Prelude.{◌≡◌, IfOk};
ghost use Rattle.node_rules.specs.Secondary.{adopted_there, low_told, second_effects};

use dc_base::{Class, Dir, DrbId, Flight, Gen, LinkId, Memory, Node, Note, Rec};
use node_parts::{add, handed_up, noted, quiet, sent, told};
use node_rules::{AnchorOut, Effects};
use std::alloc::Global;

/// What comes of a step of an anchor: that it adopted, what it handed up and sent, and its Low.
pub(crate) fn second_effects(
    alloc: Global,
    me: Node,
    id: DrbId,
    g: Gen,
    out: AnchorOut,
) -> Result<Effects, Memory>
    ensures { IfOk result (λ made. made ≡ second_effects me id g out) }
{
    let AnchorOut {
        adopted,
        ups,
        low,
        sends,
    } = out;
    let mut effects = adopted_there(alloc, me, id, g, adopted)?;
    let notes = handed_up(alloc, me, id, Dir::Ul, ups)?;
    add(&mut effects, Effects { notes, sends })?;
    add(&mut effects, low_told(alloc, me, id, g, low)?)?;
    Ok(effects)
}

// An anchor that adopted the bearer is active in this generation, and the master hears of it.
fn adopted_there(
    alloc: Global,
    me: Node,
    id: DrbId,
    g: Gen,
    adopted: bool,
) -> Result<Effects, Memory>
    ensures { IfOk result (λ made. made ≡ adopted_there me id g adopted) }
{
    match adopted {
        true => {
            let mut effects = noted(alloc, Note::Own { node: me, id, g })?;
            add(
                &mut effects,
                told(alloc, me, Node::M, Rec::Moved { g, id })?,
            )?;
            Ok(effects)
        }
        false => Ok(quiet(alloc)),
    }
}

// The Low of an anchor is told to the master where it rose.
fn low_told(alloc: Global, me: Node, id: DrbId, g: Gen, low: Option<u32>) -> Result<Effects, Memory>
    ensures { IfOk result (λ made. made ≡ low_told me id g low) }
{
    match low {
        Some(count) => {
            let link = LinkId::new(me, Node::M, Class::Feed);
            sent(alloc, link, Flight::Told { id, g, count })
        }
        None => Ok(quiet(alloc)),
    }
}
