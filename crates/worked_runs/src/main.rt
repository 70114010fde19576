//! `worked_runs`: runs each script of its folder through the top call, and says whether its transcript is as wanted.
//!
//! Beside a script `NAME.dcs` stands `NAME.out`, its whole transcript, or `NAME.lines`, lines that stand in the
//! transcript in this order.
#![tactic(auto)]

mod comparing;
mod running;
#[cfg(test)]
mod tests;

use crate::running::{Verdict, Wanted, judge};
use dc_top::shipped_policies;
use split_leg::Policies;
use std::alloc::{AllocError, Global};
use std::{fs, io};

/// The names of the scripts of the folder, without `.dcs`, in order.
fn script_names(rt: &HostRuntime) -> io::Result<Vec<String>> {
    let alloc = rt.alloc();
    let mut names = Vec::new(alloc);
    for entry in fs::read_dir(rt, ".")? {
        let entry = entry?;
        if let Some(name) = entry.file_name().strip_suffix(".dcs") {
            names.push(String::from_str(alloc, name)?)?;
        }
    }
    names.sort()?;
    Ok(names)
}

/// What is wanted of the script's transcript.
fn wanted(rt: &HostRuntime, name: &str) -> io::Result<Wanted> {
    let alloc = rt.alloc();
    let whole = format!(in alloc; "{name}.out")?;
    if fs::metadata(rt, whole.as_str()).is_ok() {
        return Ok(Wanted::Whole(fs::read_to_string(rt, whole.as_str())?));
    }
    let lines = format!(in alloc; "{name}.lines")?;
    Ok(Wanted::InOrder(fs::read_to_string(rt, lines.as_str())?))
}

/// The line that is printed of a script.
fn told(alloc: Global, name: &str, verdict: Verdict) -> Result<String, AllocError> {
    match verdict {
        Verdict::AsWanted => format!(in alloc; "{name}: as wanted"),
        Verdict::DiffersAt(line) => format!(in alloc; "{name}: differs at line {line}"),
        Verdict::EndsWith(status) => format!(in alloc; "{name}: ends with status {status}"),
    }
}

/// Runs each script, and prints a line of it.
fn judge_all(rt: &HostRuntime, policies: &Policies) -> io::Result<()> {
    let alloc = rt.alloc();
    for name in script_names(rt)?.iter() {
        let path = format!(in alloc; "{name}.dcs")?;
        let script = fs::read(rt, path.as_str())?;
        let verdict = judge(alloc, policies, script, &wanted(rt, name.as_str())?)?;
        rt.println(told(alloc, name.as_str(), verdict)?)?;
    }
    Ok(())
}

fn main(rt: HostRuntime) -> io::Result<()> {
    let alloc = rt.alloc();
    let policies = shipped_policies!(alloc).map_err(|_| AllocError)?;
    judge_all(&rt, &policies)
}
