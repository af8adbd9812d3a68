//! Runs of the program in a process of the tests' own.

use crate::process::Process;
use crate::script::{Script, Step};
use alm_program::run_local;
use std::alloc::Global;
use std::process::ExitCode;

/// How a run ends: its status, what it printed, and what it reported of a fault.
pub type Ending<'a> = (&'a str, &'a [u8], &'a [u8]);

/// A run: its words, each with an LF after it, its input, and how it ends.
pub type Run = (&'static [u8], &'static [u8], Ending<'static>);

pub const DONE: &str = "ExitCode(unix_exit_status(0))";

pub const USAGE: &str = "ExitCode(unix_exit_status(1))";

pub const TABLE_FAULT: &str = "ExitCode(unix_exit_status(2))";

pub const BROKEN: &str = "ExitCode(unix_exit_status(3))";

/// More writes than a run makes.
pub const MANY: usize = 10_000;

/// Whether a status is shown so.
pub fn is_status(alloc: Global, status: ExitCode, wanted: &str) -> bool {
    match format!(in alloc; "{status:?}") {
        Ok(status) => status.as_str() == wanted,
        Err(_) => false,
    }
}

/// Whether the program, with these words, over these steps of its input and with a number of writes that succeed, ends
/// so.
pub fn ends_over(
    rt: &HostRuntime,
    words: &[u8],
    steps: &[Step<'_>],
    writes: usize,
    (status, printed, errors): Ending<'_>,
) -> bool {
    let process = Process::new(rt, words, Script::new(steps), writes);
    let mut told = Vec::new(rt.alloc());
    let ended = run_local(&process, &mut told);
    let written = process.into_printed();
    let same = written.as_slice() == printed && told.as_slice() == errors;
    same && is_status(rt.alloc(), ended, status)
}

/// Whether the program, with these words and this input, ends so.
pub fn ends(rt: &HostRuntime, words: &[u8], input: &[u8], wanted: Ending<'_>) -> bool {
    ends_over(rt, words, &[Step::Gives(input)], MANY, wanted)
}

/// The first of these runs, one after another, that ends otherwise.
pub fn first_wrong(rt: &HostRuntime, runs: &[Run]) -> Option<usize> {
    for (place, (words, input, wanted)) in runs.iter().enumerate() {
        if !ends(rt, words, input, *wanted) {
            return Some(place);
        }
    }
    None
}
