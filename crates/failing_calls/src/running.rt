//! A script run through the top call, where one read or one write fails.

use dc_base::Status;
use dc_outside::{MemSink, MemSource};
use dc_top::run_command;
use split_leg::Policies;
use std::alloc::{AllocError, Global};

/// More octets of a transcript than come of any octet of a script here.
const GROWTH: usize = 16;

/// More than the header has.
const HEADER_ROOM: usize = 4_096;

/// More than any fault text has.
const FAULT_ROOM: usize = 256;

/// The calls of the outside that fail, by their numbers from 1; with 0 none does.
#[derive(Clone, Copy, Drop)]
pub(crate) struct Failing {
    pub(crate) read: u64,
    pub(crate) write: u64,
}

/// What a run ended with, and what it put out.
#[derive(Drop)]
pub(crate) struct Left {
    pub(crate) status: Status,
    pub(crate) out: Vec<u8>,
}

/// Runs the octets as a script.
pub(crate) fn run(
    alloc: Global,
    policies: &Policies,
    script: &[u8],
    failing: Failing,
) -> Result<Left, AllocError> {
    let mut words = Vec::new(alloc);
    words.push(String::from_str(alloc, "run")?)?;
    let mut src = MemSource::new(script.to_vec(alloc)?, vec![in alloc; failing.read]?);
    let room = script
        .len()
        .saturating_mul(GROWTH)
        .saturating_add(HEADER_ROOM);
    let mut out = MemSink::new(vec![in alloc; 0; room]?, vec![in alloc; failing.write]?);
    let mut err = MemSink::new(vec![in alloc; 0; FAULT_ROOM]?, Vec::new(alloc));
    let status = run_command(
        alloc,
        words.as_slice(),
        &mut src,
        &mut out,
        &mut err,
        policies,
    );
    Ok(Left {
        status,
        out: out.octets().to_vec(alloc)?,
    })
}
