//! `failing_calls`: runs scripts with each read and each write failing in its turn, and scripts cut after each of their first
//! octets, and says whether each run ends as it should.
#![tactic(auto)]

mod running;
mod turns;

use crate::turns::{Kind, Verdict, cut_in_turn, fails_in_turn};
use dc_top::shipped_policies;
use split_leg::Policies;
use std::alloc::{AllocError, Global};
use std::{fs, io};

/// The scripts whose reads and writes fail in turn, without `.dcs`.
const FAILING: [&str; 2] = ["two-payloads", "the-anchor-moves"];

/// The scripts that are cut.
const CUT: [&str; 3] = ["two-payloads", "the-anchor-moves", "a-download"];

/// The line that is printed of a script's runs.
fn told(alloc: Global, name: &str, what: &str, verdict: Verdict) -> Result<String, AllocError> {
    match verdict {
        Verdict::AsWanted => format!(in alloc; "{name}: {what}: as wanted"),
        Verdict::DiffersIn(turn) => format!(in alloc; "{name}: {what}: differs in turn {turn}"),
    }
}

/// A script of the folder.
fn script(rt: &HostRuntime, name: &str) -> io::Result<Vec<u8>> {
    let path = format!(in rt.alloc(); "{name}.dcs")?;
    fs::read(rt, path.as_str())
}

/// Runs a script with each read, and then each write, failing in its turn.
fn judge_failing(rt: &HostRuntime, policies: &Policies, name: &str) -> io::Result<()> {
    let alloc = rt.alloc();
    let script = script(rt, name)?;
    let reads = fails_in_turn(alloc, policies, script.as_slice(), Kind::Read)?;
    rt.println(told(alloc, name, "each read fails", reads)?)?;
    let writes = fails_in_turn(alloc, policies, script.as_slice(), Kind::Write)?;
    rt.println(told(alloc, name, "each write fails", writes)?)
}

/// Runs a script cut after each of its first octets.
fn judge_cut(rt: &HostRuntime, policies: &Policies, name: &str) -> io::Result<()> {
    let alloc = rt.alloc();
    let cuts = cut_in_turn(alloc, policies, script(rt, name)?.as_slice())?;
    rt.println(told(alloc, name, "cut after each octet", cuts)?)
}

fn main(rt: HostRuntime) -> io::Result<()> {
    let policies = shipped_policies!(rt.alloc()).map_err(|_| AllocError)?;
    for name in FAILING {
        judge_failing(&rt, &policies, name)?;
    }
    for name in CUT {
        judge_cut(&rt, &policies, name)?;
    }
    Ok(())
}
