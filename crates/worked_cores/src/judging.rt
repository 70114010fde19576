//! A table, step by step.

ghost use Rattle.std.specs.Prelude.{◌≤◌, IfSome};

use crate::cores::Cores;
use crate::sent::Sent;
use crate::steps::{MOST_OCTETS, take_step};
use crate::tallies::Tallies;
use dc_base::{Header, Memory};
use script_text::read_header;
use split_leg::Policies;
use std::alloc::Global;

/// How a table was gone through.
#[derive(Clone, Copy, Debug, PartialEq, Eq)]
pub(crate) struct Judged {
    pub(crate) tallies: Tallies,
    /// The line, from 1, at which the table is not read, where there is one. No step from there on is given.
    pub(crate) unread: Option<usize>,
}

/// The header that a table begins with.
fn header_of(table: &str) -> Option<Header>
    ensures { IfSome result (λ header. header.used ≤ 65536) }
{
    let line = table.lines().next()?;
    if line.len() > MOST_OCTETS {
        return None;
    }
    read_header(line.as_bytes()).ok()
}

/// How many lines end in a text.
fn line_count(text: &str) -> usize {
    text.bytes().filter(|octet| *octet == b'\n').count()
}

/// Gives the cores the steps of a table, in order.
fn judge_steps(
    alloc: Global,
    cores: &mut Cores,
    policies: &Policies,
    table: &str,
) -> Result<Judged, Memory> {
    let mut sent = Sent::new(alloc);
    let mut tallies = Tallies::new();
    let mut line: usize = 2;
    for step in table.split("> ").skip(1) {
        match take_step(alloc, cores, &mut sent, policies, step)? {
            Some((node, is_as_wanted)) => tallies.count(node, line, is_as_wanted),
            None => {
                return Ok(Judged {
                    tallies,
                    unread: Some(line),
                });
            }
        }
        line = line.saturating_add(line_count(step));
    }
    Ok(Judged {
        tallies,
        unread: None,
    })
}

/// Gives the cores, from before their first input, the steps of a table, and says what is to be said of each.
pub(crate) fn judge(alloc: Global, policies: &Policies, table: &str) -> Result<Judged, Memory> {
    let Some(header) = header_of(table) else {
        return Ok(Judged {
            tallies: Tallies::new(),
            unread: Some(1),
        });
    };
    let mut cores = Cores::new(alloc, &header)?;
    judge_steps(alloc, &mut cores, policies, table)
}
