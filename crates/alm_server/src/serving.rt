//! Serving a device's file.

ghost use Rattle.std.specs.Prelude.{◌≡◌, ℕ, List, IfErr, IfOk};
ghost use Rattle.alm_file.specs.Replay.{BeginsAs};
ghost use Rattle.alm_keeper.specs.AsStore.{IsLastEpoch, StandsFor};
ghost use Rattle.alm_serve.specs.Runs.{ServeEnds};
ghost use Rattle.alm_server.specs.Serving.{IsNotServed, IsServedFrom, end_of_serving, fault_of_serve};

use alm_disk::Disk;
use alm_file::{FileFault, PlacedDisk, ScrubFile, Start};
use alm_program::{Fault, OwnedEndpoints, ServeOrder, file_fault};
use alm_serve::{CountedDisk, Patience, Scrub, ServeFault, ServerEnd, serve_ports, serve_sockets};
use alm_wake::Healing;
use std::fs::{File, Files};
use std::net::Net;
use std::sync::Wait;
use std::thread::{Scope, Threads};
use std::time::Clock;
use std::{io, thread};

/// What a fault of serving is to the program.
pub fn serve_fault(fault: ServeFault) -> Fault
    ensures { result ≡ fault_of_serve fault }
{
    match fault {
        ServeFault::Open(fault) => Fault::from(fault),
        ServeFault::Net => Fault::Net,
        ServeFault::Write => Fault::Io,
        ServeFault::Memory => Fault::OutOfMemory,
        ServeFault::Storage => Fault::Stopped,
    }
}

/// Serves the slots of a device as requested, says so on standard output, and returns the device.
fn serve_disk<
    D: Disk + Drop,
    R: Files<File = File> + Print + Net + Threads + Wait + Clock + Sync + AllocGlobal,
>(
    rt: &R,
    disk: D,
    patience: Option<&Patience>,
    healing: &Healing,
    order: &ServeOrder,
) -> ServerEnd<D>
    ensures { ServeEnds D.Disk StandsFor IsLastEpoch disk result.back result.cause result.served }
{
    let (alloc, conns, mut writer) = (rt.alloc(), order.conns, io::writer(rt));
    match &order.endpoints {
        OwnedEndpoints::Ports(port) => {
            serve_ports(
                rt,
                alloc,
                disk,
                *port,
                conns,
                patience,
                healing,
                &mut writer,
            )
        }
        OwnedEndpoints::Sockets(folder) => {
            let folder = folder.as_str();
            serve_sockets(
                rt,
                alloc,
                disk,
                folder,
                conns,
                patience,
                healing,
                &mut writer,
            )
        }
    }
}

/// Starts to scrub in a thread of its own.
fn start<'s, E, R: Print + Wait + Sync + AllocGlobal>(
    scope: &Scope<'s, E>,
    scrub: &'s Scrub<'s, R>,
) -> Result<(), Fault>
    ensures memory { IfErr result (λ fault. fault ≡ Fault.OutOfMemory) }
{
    match scope.spawn(move || scrub.run()) {
        Ok(_thread) => Ok(()),
        Err(_) => Err(Fault::OutOfMemory),
    }
}

/// The same with a thread of its own that scrubs the device's file. Nothing is served if that thread can't be made.
fn serve_scrubbed<
    's,
    D: Disk + Drop,
    R: Files<File = File> + Print + Net + Threads + Wait + Clock + Sync + AllocGlobal,
>(
    rt: &'s R,
    disk: D,
    patience: Option<&Patience>,
    scrub: &'s Scrub<'s, R>,
    order: &ServeOrder,
) -> Result<ServerEnd<D>, Fault>
    ensures ends { IfOk result
        (λ end. ServeEnds D.Disk StandsFor IsLastEpoch disk end.back end.cause end.served) }
    ensures memory { IfErr result (λ fault. fault ≡ Fault.OutOfMemory) }
{
    thread::scope(
        thread::scope_env(),
        rt,
        |scope| -> Result<ServerEnd<D>, Fault>
            ensures ends { IfOk result
                (λ end. ServeEnds D.Disk StandsFor IsLastEpoch disk end.back end.cause end.served) }
            ensures memory { IfErr result (λ fault. fault ≡ Fault.OutOfMemory) }
        {
            start(scope, scrub)?;
            let end = serve_disk(rt, disk, patience, scrub.healing(), order);
            scrub.stop();
            Ok(end)
        },
    )
}

/// Serves the slots of a device, and scrubs its file if it is given.
fn serve_watched<
    D: Disk + Drop,
    R: Files<File = File> + Print + Net + Threads + Wait + Clock + Sync + AllocGlobal,
>(
    rt: &R,
    disk: D,
    file: Option<ScrubFile>,
    patience: Option<&Patience>,
    order: &ServeOrder,
) -> Result<ServerEnd<D>, Fault>
    ensures ends { IfOk result
        (λ end. ServeEnds D.Disk StandsFor IsLastEpoch disk end.back end.cause end.served) }
    ensures memory { IfErr result (λ fault. fault ≡ Fault.OutOfMemory) }
{
    match file {
        Some(file) => {
            let scrub = Scrub::new(rt, file, order.scrub);
            serve_scrubbed(rt, disk, patience, &scrub, order)
        }
        None => Ok(serve_disk(rt, disk, patience, &Healing::new(), order)),
    }
}

/// Serves the slots of a device whose calls are counted, and returns it. Only with a patience is the count asked.
fn serve_counted<
    D: Disk + Drop,
    R: Files<File = File> + Print + Net + Threads + Wait + Clock + Sync + AllocGlobal,
>(
    rt: &R,
    disk: D,
    file: Option<ScrubFile>,
    order: &ServeOrder,
) -> Result<ServerEnd<CountedDisk<D>>, Fault>
    ensures from { (start : List ℕ) → BeginsAs start (D.size disk) (D.honest disk) (D.state disk) →
        IfOk result
        (λ end. IsServedFrom ⟦<CountedDisk<D> as Disk>⟧ start end.back end.cause end.served) }
    ensures memory { IfErr result (λ fault. fault ≡ Fault.OutOfMemory) }
{
    let patience = Patience::new(rt.alloc(), order.patience.unwrap_or(0))?;
    let counted = patience.count(disk)?;
    let asked = order.patience.map(|_| &patience);
    let end = serve_watched(rt, counted, file, asked, order)?;
    Ok(end)
}

/// The device's file once more, if it is to be scrubbed.
fn file_to_scrub<R: Files<File = File>>(
    rt: &R,
    order: &ServeOrder,
) -> Result<Option<ScrubFile>, FileFault> {
    if order.scrub == 0 {
        return Ok(None);
    }
    match ScrubFile::open(rt, order.device.as_str()) {
        Ok(file) => Ok(Some(file)),
        Err(fault) => Err(fault),
    }
}

/// Serves the slots of a device's file as requested, and returns the device with the record of its calls.
///
/// What it says it says of each list of bytes that the file may have held: no code can read `start`.
pub fn serve_file<
    'r,
    S: Start,
    R: Files<File = File> + Print + Net + Threads + Wait + Clock + Sync + AllocGlobal,
>(
    rt: &'r R,
    order: &'r ServeOrder,
    start: S,
) -> Result<ServerEnd<CountedDisk<PlacedDisk<'r, R, S>>>, Fault>
    ensures from { IfOk result
        (λ end. IsServedFrom ⟦<CountedDisk<PlacedDisk<'r, R, S>> as Disk>⟧ S.Start.bytes end.back
        end.cause end.served) }
    ensures refused { IfErr result IsNotServed }
{
    let disk = match PlacedDisk::open(rt, order.device.as_str(), start) {
        Ok(disk) => disk,
        Err(fault) => return Err(file_fault(fault)),
    };
    let file = match file_to_scrub(rt, order) {
        Ok(file) => file,
        Err(fault) => return Err(file_fault(fault)),
    };
    serve_counted(rt, disk, file, order)
}

/// What a server's end is to the program: its fault, if it has one.
pub fn result_of<D: Drop>(end: ServerEnd<D>) -> Result<(), Fault>
    ensures { result ≡ end_of_serving end.served }
{
    match end.served {
        Ok(_) => Ok(()),
        Err(fault) => Err(serve_fault(fault)),
    }
}
