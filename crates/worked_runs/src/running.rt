//! A script run through the top call, and what is to be said of its transcript.

use crate::comparing::{first_difference, first_missing};
use dc_base::Status;
use dc_outside::{MemSink, MemSource};
use dc_top::run_command;
use split_leg::Policies;
use std::alloc::{AllocError, Global};

/// More octets than any transcript here has, and any fault text.
const ROOM: usize = 4 * 1024 * 1024;

const FAULT_ROOM: usize = 256;

/// What is wanted of a transcript.
#[derive(Drop)]
pub(crate) enum Wanted {
    /// This text, whole.
    Whole(String),
    /// These lines, in this order, as `first_missing` reads them.
    InOrder(String),
}

/// What is to be said of a script.
#[derive(Clone, Copy, Drop)]
pub(crate) enum Verdict {
    AsWanted,
    /// The first line that is not as wanted, from 1: of the whole transcript, or of the wanted lines.
    DiffersAt(usize),
    /// The run did not end with status 0, or its output is no text.
    EndsWith(u8),
}

/// A sink with that much room.
fn sink(alloc: Global, room: usize) -> Result<MemSink, AllocError> {
    Ok(MemSink::new(vec![in alloc; 0; room]?, Vec::new(alloc)))
}

/// Runs the script, and compares its transcript with what is wanted.
pub(crate) fn judge(
    alloc: Global,
    policies: &Policies,
    script: Vec<u8>,
    wanted: &Wanted,
) -> Result<Verdict, AllocError> {
    let mut words = Vec::new(alloc);
    words.push(String::from_str(alloc, "run")?)?;
    let mut src = MemSource::new(script, Vec::new(alloc));
    let mut out = sink(alloc, ROOM)?;
    let mut err = sink(alloc, FAULT_ROOM)?;
    let status = run_command(
        alloc,
        words.as_slice(),
        &mut src,
        &mut out,
        &mut err,
        policies,
    );
    match (status, str::from_utf8(out.octets())) {
        (Status::Ok, Ok(made)) => Ok(compared(made, wanted)),
        _ => Ok(Verdict::EndsWith(status.number())),
    }
}

/// The transcript beside what is wanted of it.
fn compared(made: &str, wanted: &Wanted) -> Verdict {
    let differs = match wanted {
        Wanted::Whole(text) => first_difference(made, text.as_str()),
        Wanted::InOrder(lines) => first_missing(made, lines.as_str()),
    };
    match differs {
        Some(line) => Verdict::DiffersAt(line),
        None => Verdict::AsWanted,
    }
}
