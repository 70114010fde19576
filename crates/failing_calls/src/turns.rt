//! Each read, each write and each end of a script in its turn.

use crate::running::{Failing, Left, run};
use dc_base::Status;
use split_leg::Policies;
use std::alloc::{AllocError, Global};

/// More reads and writes than any run here has.
const MOST: u64 = 10_000;

/// A script is cut after each of so many octets.
const CUTS: usize = 2_000;

const NONE: Failing = Failing { read: 0, write: 0 };

/// What is to be said of a script's runs.
#[derive(Clone, Copy, Drop)]
pub(crate) enum Verdict {
    AsWanted,
    /// The first turn, from 1, that is not as wanted.
    DiffersIn(u64),
}

/// A kind of call, and the status with which a run ends where one fails.
#[derive(Clone, Copy, Drop)]
pub(crate) enum Kind {
    Read,
    Write,
}

impl Kind {
    /// The call of this kind with that number fails.
    fn failing(self, number: u64) -> Failing {
        match self {
            Kind::Read => Failing {
                read: number,
                write: 0,
            },
            Kind::Write => Failing {
                read: 0,
                write: number,
            },
        }
    }

    fn status(self) -> Status {
        match self {
            Kind::Read => Status::ReadFault,
            Kind::Write => Status::WriteFault,
        }
    }
}

/// Has each call of this kind fail in its turn: each run ends with its status and puts out a front of the transcript,
/// until no call is left to fail.
pub(crate) fn fails_in_turn(
    alloc: Global,
    policies: &Policies,
    script: &[u8],
    kind: Kind,
) -> Result<Verdict, AllocError> {
    let whole = run(alloc, policies, script, NONE)?;
    for number in 1..MOST {
        let left = run(alloc, policies, script, kind.failing(number))?;
        if left.status == Status::Ok {
            let is_wanted = number > 1 && whole.status == Status::Ok && left.out == whole.out;
            return Ok(if is_wanted {
                Verdict::AsWanted
            } else {
                Verdict::DiffersIn(number)
            });
        }
        let is_front = whole.out.as_slice().starts_with(left.out.as_slice());
        if left.status != kind.status() || !is_front {
            return Ok(Verdict::DiffersIn(number));
        }
    }
    Ok(Verdict::DiffersIn(MOST))
}

/// Cuts the script after each of its first octets: each run ends with status 0 or 2 and puts out the transcript of the
/// lines before the cut line, or that and what comes of the rest of that line.
pub(crate) fn cut_in_turn(
    alloc: Global,
    policies: &Policies,
    script: &[u8],
) -> Result<Verdict, AllocError> {
    let whole = run(alloc, policies, script, NONE)?;
    let mut before = Vec::new(alloc);
    let mut cut: u64 = 0;
    for (at, octet) in script.iter().enumerate().take(CUTS) {
        cut = cut.saturating_add(1);
        let front = script.get(..=at).unwrap_or(script);
        let left = run(alloc, policies, front, NONE)?;
        if !is_cut_as_wanted(&left, before.as_slice()) {
            return Ok(Verdict::DiffersIn(cut));
        }
        if *octet == b'\n' {
            if left.status != Status::Ok || !whole.out.as_slice().starts_with(left.out.as_slice()) {
                return Ok(Verdict::DiffersIn(cut));
            }
            before = left.out;
        }
    }
    Ok(Verdict::AsWanted)
}

/// Whether a run of a script whose last line may be cut is as wanted, where the lines before that one gave `before`.
fn is_cut_as_wanted(left: &Left, before: &[u8]) -> bool {
    match left.status {
        Status::Ok => left.out.as_slice().starts_with(before),
        Status::BadLine { .. } => left.out.as_slice() == before,
        _ => false,
    }
}
