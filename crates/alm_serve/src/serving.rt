//! Serves the slots of a device.

ghost use Rattle.std.specs.Prelude.{◌≡◌, ◌≤◌, decimal, length, map, Option, IfOk, IfErr};
ghost use Rattle.alm_lines.specs.Written.{Prints};
ghost use Rattle.alm_rings.specs.Placed.{AreApart};
ghost use Rattle.alm_keeper.specs.AsStore.{IsLastEpoch, StandsFor};
ghost use Rattle.alm_serve.specs.Runs.{AreAllSlots, AreRunSlots, HasServed, IsLeftOpened, RunsBy, RunsWhole, ServeEnds};
ghost use Rattle.alm_serve.specs.Serving.{serving_line, stopped_line, ServeWrites};
ghost use Rattle.alm_serve.specs.Stores.{EndWrites, IsResultOf, IsRunOfPorts, ServesStore, WritesOf};
ghost use Rattle.alm_threads.specs.Slots.{AreNewConsoles};
ghost use Rattle.alm_types.specs.Sizes.{most_actions, slot_count};
ghost use Rattle.alm_threads.specs.declared.stop_cause.StopCause.{StopCause};
ghost use Rattle.alm_moments.specs.Naming.{IsNamedAfter};

use crate::listen::Listen;
use crate::opening::SlotPorts;
use crate::patience::Patience;
use crate::port_fault::PortFault;
use crate::ports::Ports;
use crate::serve_fault::ServeFault;
use crate::server_end::ServerEnd;
use crate::slot_port::SlotPort;
use crate::sockets::Sockets;
use crate::store_end::StoreEnd;
use alm_disk::{Disk, Free};
use alm_keeper::{Keeper, Phase};
use alm_lines::{Part, put_parts};
use alm_model::Alarms;
use alm_moments::RunId;
use alm_plant::Plant;
use alm_rings::Told;
use alm_shared::{Durable, NewRun, SharedBoard, SharedLook};
use alm_store::Store;
use alm_threads::{Parts, RunEnd, RunReport, Storage, WatchedLook, parts_of, run_with_bells};
use alm_types::{SLOTS, Slot};
use alm_wake::Healing;
use std::alloc::{AllocError, Global};
use std::fs::{File, Files};
use std::io;
use std::marker::Brand;
use std::net::Net;
use std::sync::Wait;
use std::thread::Threads;
use std::time::Clock;

/// Writes that the slots are open.
fn print_serving<R, L: Listen<R>, W: io::Write>(listen: &L, writer: &mut W) -> io::Result<()>
    ensures { Prints (W.contents writer.old) (W.contents writer.new)
        (serving_line (L.name listen.now)) result }
{
    put_parts(
        &[Part::Word("serving "), listen.name(), Part::Word("\n")],
        writer,
    )
}

/// Writes that the server has stopped, and how many actions are stored.
fn print_stopped<W: io::Write>(count: u64, writer: &mut W) -> io::Result<()>
    ensures { Prints (W.contents writer.old) (W.contents writer.new) (stopped_line count) result }
{
    put_parts(
        &[
            Part::Word("stopped "),
            Part::Number(count),
            Part::Word("\n"),
        ],
        writer,
    )
}

/// All slots, in their order.
fn all_slots(alloc: Global) -> Result<Vec<Slot>, AllocError>
    ensures count { IfOk result (λ slots. length slots.items ≡ slot_count) }
    ensures apart { IfOk result (λ slots. AreApart (λ s. s) slots.items) }
    ensures order { IfOk result (λ slots. AreAllSlots slots.items) }
{
    let mut slots = Vec::with_capacity(alloc, SLOTS)?;
    for number in 0..18_u8 {
        match Slot::new(number) {
            Some(slot) => slots.push_reserved(slot),
            None => unreachable!(),
        }
    }
    Ok(slots)
}

/// The result of a run by its report; after a whole one it writes how many actions are stored.
fn print_end<K: Store, T: Told + Drop, J: RunId, W: io::Write>(
    report: &RunReport<K, T, J>,
    writer: &mut W,
) -> Result<u64, ServeFault>
    ensures result { IsResultOf K.Store K.Device.Disk result report.now }
    ensures writes { EndWrites (W.contents writer.old) (W.contents writer.new)
        (K.state report.now.keeper).stored.panel.count result }
{
    match report.storage {
        Storage::Whole => {
            let count = report.keeper.count();
            match print_stopped(count, writer) {
                Ok(()) => Ok(count),
                Err(_) => Err(ServeFault::Write),
            }
        }
        Storage::Stopped => Err(ServeFault::Storage),
    }
}

/// A run whose sources are ports, each of which can be a source of no other run.
type PortsRun<'r, K, J, R> = RunEnd<K, Durable<J>, J, SlotPort<'r, R, Durable<J>>>;

/// What a server over an open store returns.
pub type PortsEnd<'r, K, J, R> = StoreEnd<K, Durable<J>, J, SlotPort<'r, R, Durable<J>>>;

/// Runs these parts with these ports. The store is returned if out of memory or no thread can be made.
fn run_parts<
    'r,
    'h,
    J: RunId + Send + Sync,
    P: Alarms + Drop + Send + Sync,
    K: Store,
    R: Threads + Wait + Clock + Sync,
>(
    rt: &R,
    alloc: Global,
    parts: Parts<Durable<J>, WatchedLook<'h, SharedLook<J, P>, Free>, SharedBoard<J, P>, K, J>,
    ports: SlotPorts<'r, R, Durable<J>>,
    healing: &Healing,
) -> Result<PortsRun<'r, K, J, R>, K>
    requires ports { map (λ port. port.slot) ports.ports.items ≡ parts.slots.items }
    requires new { AreNewConsoles parts.consoles.items }
    ensures run { IfOk result
        (IsRunOfPorts K.Store K.Device.Disk parts.entry.middle.flusher.store
        ports.entry.ports.items) }
    ensures refused { IfErr result (λ back. back ≡ parts.entry.middle.flusher.store) }
{
    let SlotPorts { ports, bells } = ports;
    match run_with_bells(rt, alloc, parts, &Free, healing, bells, ports) {
        Ok(run) => Ok(run),
        Err(started) => Err(started.store),
    }
}

/// Runs the parts over a store with these ports. The store is returned if out of memory or no thread can be made.
fn run_behind<'r, J: RunId + Send + Sync, K: Store, R: Threads + Wait + Clock + Sync>(
    rt: &R,
    alloc: Global,
    new: NewRun,
    store: K,
    slots: Vec<Slot>,
    ports: SlotPorts<'r, R, Durable<J>>,
    healing: &Healing,
) -> Result<PortsRun<'r, K, J, R>, K>
    requires books { (new.history.seen.book ≡ J.book) × (new.moments.seen.book ≡ J.moments) }
    requires named { IsNamedAfter J.RunId K.Store K.Device.Disk store }
    requires idle { (K.state store).phase ≡ Phase.Idle }
    requires limit { (K.state store).stored.panel.count ≤ most_actions }
    requires slots { AreRunSlots slots.items }
    requires ports { map (λ port. port.slot) ports.ports.items ≡ slots.items }
    ensures run { IfOk result
        (IsRunOfPorts K.Store K.Device.Disk store ports.entry.ports.items) }
    ensures refused { IfErr result (λ back. back ≡ store) }
{
    let parts = parts_of::<J, K, Free, R>(rt, alloc, new, store, slots, &Free)?;
    run_parts::<J, Plant, K, R>(rt, alloc, parts, ports, healing)
}

/// Serves an open store at the open ports of these slots, in their order, and returns the run, or the store if nothing was run.
///
/// It writes `serving` and what they listen at, starts the threads, and writes `stopped N` at the end of a whole run: how many
/// actions are stored. The receipts of these ports are of the run `J`, which the caller names after the store. So no other run
/// answers their clients, and each reply `OK` of this one has moments of this store's device.
pub fn serve_store<
    'r,
    J: RunId + Send + Sync,
    K: Store,
    L: Listen<R>,
    W: io::Write,
    R: Threads + Wait + Clock + Sync,
>(
    rt: &R,
    alloc: Global,
    new: NewRun,
    store: K,
    slots: Vec<Slot>,
    ports: SlotPorts<'r, R, Durable<J>>,
    healing: &Healing,
    listen: &L,
    writer: &mut W,
) -> PortsEnd<'r, K, J, R>
    requires books { (new.history.seen.book ≡ J.book) × (new.moments.seen.book ≡ J.moments) }
    requires named { IsNamedAfter J.RunId K.Store K.Device.Disk store }
    requires idle { (K.state store).phase ≡ Phase.Idle }
    requires limit { (K.state store).stored.panel.count ≤ most_actions }
    requires slots { AreRunSlots slots.items }
    requires ports { map (λ port. port.slot) ports.ports.items ≡ slots.items }
    ensures serves { ServesStore K.Store K.Device.Disk store ports.entry.ports.items result }
    ensures writes { WritesOf K.Store K.Device.Disk (L.name listen.now) (W.contents writer.old)
        (W.contents writer.new) result }
{
    match print_serving::<R, L, W>(listen, writer) {
        Ok(()) => {}
        Err(_) => return StoreEnd::Unserved(ServeFault::Write, store),
    }
    match run_behind::<J, K, R>(rt, alloc, new, store, slots, ports, healing) {
        Ok(run) => StoreEnd::Served(print_end(&run.report, writer), run),
        Err(store) => StoreEnd::Unserved(ServeFault::Memory, store),
    }
}

/// Serves the slots of an open store.
fn serve_over<
    J: RunId + Send + Sync,
    K: Store,
    L: Listen<R>,
    W: io::Write,
    R: Threads + Wait + Clock + Sync,
>(
    rt: &R,
    alloc: Global,
    new: NewRun,
    store: K,
    healing: &Healing,
    listen: &L,
    conns: u32,
    writer: &mut W,
) -> ServerEnd<K>
    requires books { (new.history.seen.book ≡ J.book) × (new.moments.seen.book ≡ J.moments) }
    requires named { IsNamedAfter J.RunId K.Store K.Device.Disk store }
    requires idle { (K.state store).phase ≡ Phase.Idle }
    requires limit { (K.state store).stored.panel.count ≤ most_actions }
    ensures writes { ServeWrites (K.disk result.back ≡ K.disk store)
        (RunsWhole K.Device.Disk K.recovers (K.state store).stored (K.disk store)
        (K.disk result.back)) (L.name listen.now) (W.contents writer.old)
        (W.contents writer.new) result.served }
    ensures ends { RunsBy K.Device.Disk K.recovers K.spent (K.state store).stored (K.disk store)
        (K.disk result.back) result.cause result.served }
{
    let slots = match all_slots(alloc) {
        Ok(slots) => slots,
        Err(_) => return ServerEnd::unserved(ServeFault::Memory, store),
    };
    let ports = match listen.open(rt, alloc, slots.as_slice(), conns) {
        Ok(ports) => ports,
        Err(PortFault::Net) => return ServerEnd::unserved(ServeFault::Net, store),
        Err(PortFault::OutOfMemory) => return ServerEnd::unserved(ServeFault::Memory, store),
    };
    ServerEnd::of(serve_store::<J, K, L, W, R>(
        rt, alloc, new, store, slots, ports, healing, listen, writer,
    ))
}

/// Opens a device, serves its slots for `conns` connections in all, 0 without end, and returns the device.
///
/// The steps, in this order: it opens the device, opens the slots, writes `serving` and what they listen at, and starts the threads.
/// At the end it writes `stopped N`: how many actions are stored.
///
/// In between the server's threads run. At each moment of that run, what a power failure leaves of an honest device
/// encodes a prefix of what was accepted by then. The prefix reaches the moment's floor, at the end every number that was released.
/// If nothing was run, the device is as an opening leaves it.
fn serve_device<D: Disk + Drop, L: Listen<R>, W: io::Write, R: Threads + Wait + Clock + Sync>(
    rt: &R,
    alloc: Global,
    disk: D,
    healing: &Healing,
    listen: &L,
    conns: u32,
    writer: &mut W,
) -> ServerEnd<D>
    ensures writes { ServeWrites (IsLeftOpened D.Disk StandsFor disk result.back)
        (HasServed D.Disk StandsFor disk result.back) (L.name listen.now)
        (W.contents writer.old) (W.contents writer.new) result.served }
    ensures ends { ServeEnds D.Disk StandsFor IsLastEpoch disk result.back result.cause
        result.served }
{
    match <Keeper<D> as Store>::open(alloc, disk) {
        Ok(keeper) => {
            let new = NewRun::new();
            let end = serve_over::<Brand, Keeper<D>, L, W, R>(
                rt, alloc, new, keeper, healing, listen, conns, writer,
            );
            ServerEnd {
                served: end.served,
                cause: end.cause,
                back: end.back.into_device(),
            }
        }
        Err((fault, disk)) => ServerEnd::unserved(ServeFault::Open(fault), disk),
    }
}

/// Serves the slots of a device on the 18 ports of loopback from this one on, and returns the device. It writes `serving P`.
///
/// `conns` is the number of connections in all; 0 is without end. With a `patience` no client is served while a call of the
/// patience's device takes longer than that. By `healing` a reader of the device asks for a checkpoint.
pub fn serve_ports<D: Disk + Drop, W: io::Write, R: Net + Threads + Wait + Clock + Sync>(
    rt: &R,
    alloc: Global,
    disk: D,
    port: u16,
    conns: u32,
    patience: Option<&Patience>,
    healing: &Healing,
    writer: &mut W,
) -> ServerEnd<D>
    requires { port ≤ 65518 }
    ensures writes { ServeWrites (IsLeftOpened D.Disk StandsFor disk result.back)
        (HasServed D.Disk StandsFor disk result.back) (decimal port)
        (W.contents writer.old) (W.contents writer.new) result.served }
    ensures ends { ServeEnds D.Disk StandsFor IsLastEpoch disk result.back result.cause
        result.served }
{
    let listen = Ports {
        first: port,
        patience,
    };
    serve_device(rt, alloc, disk, healing, &listen, conns, writer)
}

/// The same at 18 Unix sockets in this folder, which must exist: slot k at the socket k. It writes `serving FOLDER`, the folder as
/// it is given.
///
/// A socket has mode 0660, so its owner and its group decide who has the slot's role. A dead server's sockets are replaced. If one
/// answers, or anything else is at its path, that is a fault `Net`, and nothing in the folder changes. The sockets stay after the
/// server's end.
pub fn serve_sockets<
    D: Disk + Drop,
    W: io::Write,
    R: Net + Files<File = File> + Threads + Wait + Clock + Sync,
>(
    rt: &R,
    alloc: Global,
    disk: D,
    folder: &str,
    conns: u32,
    patience: Option<&Patience>,
    healing: &Healing,
    writer: &mut W,
) -> ServerEnd<D>
    ensures writes { ServeWrites (IsLeftOpened D.Disk StandsFor disk result.back)
        (HasServed D.Disk StandsFor disk result.back) folder.now
        (W.contents writer.old) (W.contents writer.new) result.served }
    ensures ends { ServeEnds D.Disk StandsFor IsLastEpoch disk result.back result.cause
        result.served }
{
    serve_device(
        rt,
        alloc,
        disk,
        healing,
        &Sockets { folder, patience },
        conns,
        writer,
    )
}

/// What [`serve_ports`] without a patience has served, without the device.
pub fn serve_run<D: Disk + Drop, W: io::Write, R: Net + Threads + Wait + Clock + Sync>(
    rt: &R,
    alloc: Global,
    disk: D,
    port: u16,
    conns: u32,
    writer: &mut W,
) -> Result<u64, ServeFault>
    requires { port ≤ 65518 }
    ensures { (back : D) × (cause : Option StopCause) ×
        ServeEnds D.Disk StandsFor IsLastEpoch disk back cause result ×
        ServeWrites (IsLeftOpened D.Disk StandsFor disk back) (HasServed D.Disk StandsFor disk back)
        (decimal port) (W.contents writer.old) (W.contents writer.new) result }
{
    serve_ports(rt, alloc, disk, port, conns, None, &Healing::new(), writer).served
}
