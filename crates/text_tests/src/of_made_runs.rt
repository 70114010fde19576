//! Of `made_runs`: worked rows, and a sink that fails.

use dc_base::Status;
use dc_outside::MemSink;
use dc_top::shipped_policies;
use made_runs::made_command;
use made_scripts::{MadeForm, Purpose};
use std::alloc::Global;
use std::process::Abort;
use std::test::Fail;

const ONE_TURN: &[u8] =
    b"dcs1 nea2 0 5a5a5a5a5a5a5a5a5a5a5a5a5a5a5a5a5a5a5a5a5a5a5a5a5a5a5a5a5a5a5a5a\nbearer 1 18 0 mm 0 0\ndrain\nadd a\ndrain\nshape 1 mxm\ndrain\ndrain\nrecover 1\ndrain\n";

/// How a form ends, and what it writes to a sink of which this write fails.
fn written(
    alloc: Global,
    purpose: Purpose,
    seed: u64,
    turns: u32,
    bad_write: u64,
) -> Result<(Status, Vec<u8>), Fail> {
    let mut out = MemSink::new(vec![in alloc; 0; 400_000]?, vec![in alloc; bad_write]?);
    let policies = shipped_policies!(alloc)?;
    let form = MadeForm {
        purpose,
        seed,
        turns,
    };
    let status = made_command(alloc, form, &mut out, &policies);
    Ok((status, out.octets().to_vec(alloc)?))
}

/// Whether each of the first two lines ends in a number, `/` and the same number.
fn all_handed_up(text: &str) -> bool {
    text.lines().take(2).all(|line| match line.split(' ').last() {
        Some(pair) => match pair.split_once('/') {
            Some((handed, submitted)) => handed == submitted,
            None => false,
        },
        None => false,
    })
}

#[test]
fn the_script_of_one_turn(rt: HostRuntime) -> Result<(), Fail> {
    let made = written(rt.alloc(), Purpose::Make, 1, 1, 0)?;
    assert_eq!(rt; made.0, Status::Ok);
    assert_eq!(rt; made.1.as_slice(), ONE_TURN);
    Ok(())
}

#[test]
fn a_sink_that_fails(rt: HostRuntime) -> Result<(), Fail> {
    for purpose in [Purpose::Make, Purpose::Soak] {
        let made = written(rt.alloc(), purpose, 1, 1, 1)?;
        assert_eq!(rt; made.0, Status::WriteFault);
    }
    Ok(())
}

#[test]
fn all_payloads_are_handed_up(rt: HostRuntime) -> Result<(), Fail> {
    for (seed, turns) in [(1, 2000), (7, 5000)] {
        let soaked = written(rt.alloc(), Purpose::Soak, seed, turns, 0)?;
        assert_eq!(rt; soaked.0, Status::Ok);
        let text = String::from_utf8(soaked.1)?;
        assert!(rt; text.starts_with("1 dl "), "{text}");
        assert!(rt; all_handed_up(text.as_str()), "{text}");
    }
    Ok(())
}
