//! The program in its own process.

ghost use Rattle.std.specs.Process.{exit_status};
ghost use Rattle.alm_program.specs.Faults.{EndsAnyhow};

use crate::serving::{result_of, serve_file};
use alm_file::Unknown;
use alm_program::{Fault, end_of, run_words};
use std::env::Env;
use std::fs::{File, Files};
use std::io;
use std::net::Net;
use std::process::ExitCode;
use std::sync::Wait;
use std::thread::Threads;
use std::time::Clock;

/// Does what the process's words ask.
fn run<
    R: Input + Print + Env + Files<File = File> + Net + Threads + Wait + Clock + Sync + AllocGlobal,
>(rt: &R) -> Result<(), Fault> {
    match run_words(rt)? {
        Some(order) => result_of(serve_file(rt, &order, Unknown)?),
        None => Ok(()),
    }
}

/// Does what the process's words ask, over its standard streams, its files and its ports: status 0, or one line to `errors` and
/// the status of the fault.
pub fn run_in_process<
    R: Input + Print + Env + Files<File = File> + Net + Threads + Wait + Clock + Sync + AllocGlobal,
    E: io::Write,
>(rt: &R, errors: &mut E) -> ExitCode
    ensures { EndsAnyhow (E.contents errors.old) (E.contents errors.new) (exit_status result) }
{
    end_of(run(rt), errors)
}
