//! What a core is asked of a bearer between its inputs, and its reply as a table has it.

use dc_base::{DrbId, Gen, SnLen};
use node_rules::Edges;
use std::alloc::{AllocError, Global};

/// `has ID`: whether the node takes a report of the bearer. `edges ID G`: the SN length, RX_DELIV and Low of the bearer in this
/// generation.
#[derive(Clone, Copy, Debug, PartialEq, Eq)]
pub(crate) enum Question {
    Has(DrbId),
    Edges(DrbId, Gen),
}

/// What a core says.
#[derive(Clone, Copy, Debug, PartialEq, Eq)]
pub(crate) enum Reply {
    Has(bool),
    Edges(Option<Edges>),
}

/// The bearer of this number.
fn read_identity(word: &str) -> Option<DrbId> {
    DrbId::new(word.parse::<u8>().ok()?)
}

/// The question that a line says; `None` where it says none.
pub(crate) fn read_question(line: &str) -> Option<Question> {
    let (word, rest) = line.split_once(' ')?;
    match (word, rest.split_once(' ')) {
        ("has", None) => Some(Question::Has(read_identity(rest)?)),
        ("edges", Some((id, g))) => Some(Question::Edges(
            read_identity(id)?,
            g.parse::<u32>().ok()?,
        )),
        _ => None,
    }
}

/// The line of a reply: `= yes`, `= no`, `= SNLEN RX_DELIV LOW` or `= none`.
pub(crate) fn reply_line(alloc: Global, reply: Reply) -> Result<String, AllocError> {
    match reply {
        Reply::Has(true) => String::from_str(alloc, "= yes\n"),
        Reply::Has(false) => String::from_str(alloc, "= no\n"),
        Reply::Edges(None) => String::from_str(alloc, "= none\n"),
        Reply::Edges(Some(edges)) => {
            let bits = match edges.n {
                SnLen::S12 => 12,
                SnLen::S18 => 18,
            };
            let (deliv, low) = (edges.deliv, edges.low);
            format!(in alloc; "= {bits} {deliv} {low}\n")
        }
    }
}
