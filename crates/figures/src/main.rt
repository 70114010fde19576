//! `figures`: works through large cases of the entities, and prints what it counted there. The word of the command line names
//! the case; with no word it does nothing. `examples/figures.py` runs each case and times it.
#![tactic(auto)]

mod keys;
mod legs;
mod tunnels;

use dc_base::Memory;
use std::alloc::{AllocError, Global};
use std::{env, io};

/// What was counted in the case of this name: `None` where no case has it.
fn counted(alloc: Global, name: &str) -> Result<Option<u64>, Memory> {
    match name {
        "lost-run" => Ok(Some(tunnels::lost_run(alloc)?)),
        "closing-gaps" => Ok(Some(tunnels::closing_gaps(alloc)?)),
        "keys" => Ok(Some(keys::claimed(alloc)?)),
        "legs" => Ok(Some(legs::settled(alloc)?)),
        _ => Ok(None),
    }
}

/// Works through the case of this name, and prints what was counted.
fn tell(rt: &HostRuntime, name: &str) -> io::Result<()> {
    let alloc = rt.alloc();
    match counted(alloc, name) {
        Ok(Some(count)) => rt.println(format!(in alloc; "{name} {count}")?)?,
        Ok(None) => rt.println(format!(in alloc; "{name} is no case")?)?,
        Err(Memory) => return Err(io::Error::from(AllocError)),
    }
    Ok(())
}

fn main(rt: HostRuntime) -> io::Result<()> {
    for name in env::args(&rt)?.skip(1) {
        tell(&rt, name.as_str())?;
    }
    Ok(())
}
