//! The alarm server: a process's words, streams, files and ports over the proved parts.
//!
//! A status other than 0 comes with one line on standard error; `alm_program` says which words do what, and which fault
//! has which line and status.
//!
//! ```text
//! alm_server format plant.device plant.toml
//! alm_server desk plant.device
//! alm_server serve plant.device --port 5000
//! alm_server serve plant.device --sockets /run/alarms/plant --patience 10 --scrub 3600
//! ```
//!
//! Proved:
//! - the program ends with status 0 and no line, or with a fault's status and line, or a prefix of it if errors can't be
//!   written (by `print_fault`, `Fault`, `result_of`, `serve_fault`)
//! - **whatever bytes its file held, if its opening read them: what became of the device that began with them, by the record
//!   of its calls** (by `serve_file`)
#![tactic(auto)]

mod process;
mod serving;

use crate::process::run_in_process;
use std::process::ExitCode;

fn main(rt: HostRuntime) -> ExitCode {
    run_in_process(&rt, &mut rt.stderr())
}
