//! `dc`: NR-NR dual connectivity, run from a script. It makes the real source and sinks and the shipped routing policies,
//! makes the top call that takes the form of the words, and ends with its status.
#![tactic(auto)]

use check_form::check_command;
use dc_base::{Memory, Status};
use dc_outside::{StdSink, StdSource};
use dc_top::{is_check, run_command, shipped_policies, write_fault};
use std::alloc::AllocError;
use std::io::ErrorKind;
use std::process::ExitCode;
use std::{env, io};

/// The words of the command line, without the program's name. `Usage` where one of them is not UTF-8, `Memory` where there
/// was none for them.
fn words(rt: &HostRuntime) -> Result<Vec<String>, Status> {
    match env::args(rt) {
        Ok(args) => {
            let words: Result<Vec<String>, AllocError> = args.skip(1).collect(rt.alloc());
            words.map_err(|_| Status::Memory)
        }
        Err(error) => Err(status_of(&error)),
    }
}

/// The status for words that could not be read.
fn status_of(error: &io::Error) -> Status {
    if error.kind() == ErrorKind::OutOfMemory {
        Status::Memory
    } else {
        Status::Usage
    }
}

/// The form `run`, and the forms that read nothing, under the shipped routing policies. Answers the number that the program ends
/// with.
fn run(rt: &HostRuntime, words: &[String]) -> u8 {
    let alloc = rt.alloc();
    let mut err = StdSink::new(rt.stderr());
    let status = match shipped_policies!(alloc) {
        Ok(policies) => {
            let mut src = StdSource::new(rt.reader());
            let mut out = StdSink::new(rt.stdout());
            run_command(alloc, words, &mut src, &mut out, &mut err, &policies)
        }
        Err(Memory) => {
            write_fault(alloc, Status::Memory, &mut err);
            Status::Memory
        }
    };
    status.number()
}

/// The form `check`. Answers the number that the program ends with.
fn check(rt: &HostRuntime) -> u8 {
    let mut src = StdSource::new(rt.reader());
    let mut out = StdSink::new(rt.stdout());
    let mut err = StdSink::new(rt.stderr());
    check_command(rt.alloc(), &mut src, &mut out, &mut err).number()
}

fn main(rt: HostRuntime) -> ExitCode {
    let number = match words(&rt) {
        Ok(words) => {
            if is_check(words.as_slice()) {
                check(&rt)
            } else {
                run(&rt, words.as_slice())
            }
        }
        Err(status) => {
            write_fault(rt.alloc(), status, &mut StdSink::new(rt.stderr()));
            status.number()
        }
    };
    ExitCode::from(number)
}
