//! The program, from its words to its status.

ghost use Rattle.std.specs.Prelude.{◌≡◌, IfOk, string_bytes};
ghost use Rattle.std.specs.Process.{exit_status};
ghost use Rattle.alm_program.specs.Jobs.{AreEndpoints, IsJob};
ghost use Rattle.alm_program.specs.Orders.{endpoints_of, order_of};
ghost use Rattle.alm_program.specs.Faults.{EndsBy, EndsAnyhow};
ghost use Rattle.alm_program.specs.ServeOrders.{IsAskedInWords, IsOrderOf};
ghost use Rattle.alm_program.specs.OwnedEndpoints.{AreOwnedEndpoints, at_of};

use crate::desk::{run_desk, run_device_desk};
use crate::endpoints::Endpoints;
use crate::exporting::run_export;
use crate::fault::Fault;
use crate::fault_line::print_fault;
use crate::formatting::run_format;
use crate::io_faults::io_fault;
use crate::job::Job;
use crate::owned_endpoints::OwnedEndpoints;
use crate::serve_order::ServeOrder;
use crate::showing::run_show;
use crate::upgrading::run_upgrade;
use crate::words::job_of;
use alm_file::{Unknown, fill_streams};
use alm_lines::put;
use std::alloc::{AllocError, Global};
use std::env::{self, Env};
use std::fs::{File, Files};
use std::io::{self, ErrorKind};
use std::process::ExitCode;

/// The program's name and the words after it.
fn words_of<R: Env + AllocGlobal>(rt: &R) -> Result<Vec<String>, Fault> {
    match env::args(rt) {
        Ok(words) => Ok(words.collect(rt.alloc()).map_err(|_| Fault::OutOfMemory)?),
        Err(error) if error.kind() == ErrorKind::OutOfMemory => Err(Fault::OutOfMemory),
        Err(_) => Err(Fault::Usage),
    }
}

/// The endpoints that are asked for, which own the folder's name.
fn owned(alloc: Global, endpoints: Endpoints<'_>) -> Result<OwnedEndpoints, AllocError>
    requires { AreEndpoints endpoints }
    ensures at { IfOk result (λ o. at_of o ≡ endpoints_of endpoints.entry) }
    ensures ports { IfOk result AreOwnedEndpoints }
{
    match endpoints {
        Endpoints::Ports(port) => Ok(OwnedEndpoints::Ports(port)),
        Endpoints::Sockets(folder) => Ok(OwnedEndpoints::Sockets(String::from_str(alloc, folder)?)),
    }
}

/// What a server is asked.
fn order_to(
    alloc: Global,
    device: &str,
    endpoints: Endpoints<'_>,
    conns: u32,
    patience: Option<u32>,
    scrub: u32,
) -> Result<ServeOrder, Fault>
    requires { AreEndpoints endpoints }
    ensures { IfOk result
        (λ order. (string_bytes order.device ≡ device.now) ×
        (at_of order.endpoints ≡ endpoints_of endpoints.entry) × (order.conns ≡ conns) ×
        (order.patience ≡ patience) × (order.scrub ≡ scrub)) }
{
    let device = String::from_str(alloc, device)?;
    let endpoints = owned(alloc, endpoints)?;
    Ok(ServeOrder {
        device,
        endpoints,
        conns,
        patience,
        scrub,
    })
}

/// Does a job. Of one to serve no more is done, and the answer is what it asks.
fn run_job<'a, R: Input + Print + Files<File = File> + AllocGlobal>(
    rt: &R,
    job: Job<'a>,
) -> Result<Option<ServeOrder>, Fault>
    requires { IsJob job }
    ensures { IfOk result (IsOrderOf (order_of job.entry)) }
{
    match job {
        Job::Tell(about) => put(about.text().as_bytes(), &mut io::writer(rt)).map_err(io_fault)?,
        Job::Desk(None) => run_desk(rt)?,
        Job::Desk(Some(device)) => run_device_desk(rt, device, Unknown)?.done?,
        Job::Format {
            device,
            table,
            version,
        } => drop(run_format(rt, device, table, version, Unknown)?),
        Job::Upgrade { device, version } => {
            drop(run_upgrade(rt, device, version, Unknown, Unknown)?)
        }
        Job::Show(device) => run_show(rt, device, Unknown)?,
        Job::Export(device) => run_export(rt, device, Unknown)?,
        Job::Serve {
            device,
            endpoints,
            conns,
            patience,
            scrub,
        } => {
            let order = order_to(rt.alloc(), device, endpoints, conns, patience, scrub)?;
            return Ok(Some(order));
        }
    }
    Ok(None)
}

/// Does what the words ask of files and standard streams, after the descriptor of each closed stream is taken. If they ask for a
/// server, nothing is done, and the order is returned.
pub fn run_words<R: Input + Print + Env + Files<File = File> + AllocGlobal>(
    rt: &R,
) -> Result<Option<ServeOrder>, Fault>
    ensures { IfOk result IsAskedInWords }
{
    fill_streams(rt).map_err(io_fault)?;
    let words = words_of(rt)?;
    run_job(rt, job_of(rt.alloc(), words.as_slice())?)
}

/// The end of the program: status 0 and no line, or one line to `errors` and the status of the fault.
pub fn end_of<E: io::Write>(answer: Result<(), Fault>, errors: &mut E) -> ExitCode
    ensures { EndsBy answer (E.contents errors.old) (E.contents errors.new) (exit_status result) }
{
    match answer {
        Ok(()) => ExitCode::SUCCESS,
        Err(fault) => {
            let _ = print_fault(&fault, errors);
            ExitCode::from(fault.status())
        }
    }
}

/// Does what the words ask; words that ask for a server are wrong usage.
fn run_alone<R: Input + Print + Env + Files<File = File> + AllocGlobal>(
    rt: &R,
) -> Result<(), Fault> {
    match run_words(rt)? {
        None => Ok(()),
        Some(_) => Err(Fault::Usage),
    }
}

/// The program without a server, over the process's standard streams and files.
pub fn run_local<R: Input + Print + Env + Files<File = File> + AllocGlobal, E: io::Write>(
    rt: &R,
    errors: &mut E,
) -> ExitCode
    ensures { EndsAnyhow (E.contents errors.old) (E.contents errors.new) (exit_status result) }
{
    end_of(run_alone(rt), errors)
}
