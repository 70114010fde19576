//! `worked_cores`: gives the cores of the nodes their inputs one by one, with no network between them, and says of each core
//! whether it answers, notes and sends what is wanted.
//!
//! Each table `NAME.steps` of its folder begins with the header of a script. `> NODE LINE` is a step: an input of that node,
//! `t`, `m`, `a` or `b`. LINE is an event as a script has it, and `step LINK NUMBER` gives the node the flight of this number,
//! from 0, of all that were put on the link so far. Up to the next step stand the lines that are wanted of it: the answer, and
//! the notes and sends in their order. LINE may also ask the node of a bearer: `has ID`, whether it takes a report of it, or
//! `edges ID G`, what it has in this generation; then the reply is wanted. One table, `not-as-wanted`, wants too little of the master, and its last step names a
//! flight that was not sent.
#![tactic(auto)]

mod asking;
mod cores;
mod judging;
mod sent;
mod steps;
mod tallies;

use crate::judging::{Judged, judge};
use crate::tallies::Tally;
use dc_base::{Memory, Node};
use dc_top::shipped_policies;
use split_leg::Policies;
use std::alloc::{AllocError, Global};
use std::{fs, io};

/// The names of the tables of the folder, without `.steps`, in order.
fn table_names(rt: &HostRuntime) -> io::Result<Vec<String>> {
    let alloc = rt.alloc();
    let mut names = Vec::new(alloc);
    for entry in fs::read_dir(rt, ".")? {
        let entry = entry?;
        if let Some(name) = entry.file_name().strip_suffix(".steps") {
            names.push(String::from_str(alloc, name)?)?;
        }
    }
    names.sort()?;
    Ok(names)
}

/// How a node is called.
fn node_name(node: Node) -> &'static str {
    match node {
        Node::T => "terminal",
        Node::M => "master",
        Node::A => "secondary a",
        Node::B => "secondary b",
    }
}

/// The line that is printed of a core that took part in a table.
fn told(alloc: Global, name: &str, node: Node, tally: Tally) -> Result<String, AllocError> {
    let core = node_name(node);
    match tally.differs {
        None => format!(in alloc; "{name}, {core}: as wanted"),
        Some(line) => format!(in alloc; "{name}, {core}: differs at the step in line {line}"),
    }
}

/// Prints what is to be said of each core, and where the table is not read.
fn tell(rt: &HostRuntime, name: &str, judged: &Judged) -> io::Result<()> {
    let alloc = rt.alloc();
    for node in [Node::T, Node::M, Node::A, Node::B] {
        let tally = judged.tallies.of(node);
        if tally.inputs > 0 {
            rt.println(told(alloc, name, node, tally)?)?;
        }
    }
    if let Some(line) = judged.unread {
        rt.println(format!(in alloc; "{name}: not read in line {line}")?)?;
    }
    Ok(())
}

/// Gives the cores the steps of each table, and prints what is to be said.
fn judge_all(rt: &HostRuntime, policies: &Policies) -> io::Result<()> {
    let alloc = rt.alloc();
    for name in table_names(rt)?.iter() {
        let path = format!(in alloc; "{name}.steps")?;
        let table = fs::read_to_string(rt, path.as_str())?;
        match judge(alloc, policies, table.as_str()) {
            Ok(judged) => tell(rt, name.as_str(), &judged)?,
            Err(Memory) => return Err(io::Error::from(AllocError)),
        }
    }
    Ok(())
}

fn main(rt: HostRuntime) -> io::Result<()> {
    let alloc = rt.alloc();
    let policies = shipped_policies!(alloc).map_err(|_| AllocError)?;
    judge_all(&rt, &policies)
}
