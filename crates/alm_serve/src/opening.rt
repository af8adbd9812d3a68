//! Opens the slots' ports, or their sockets.

ghost use Rattle.std.specs.Prelude.{◌≡◌, ◌≤◌, IfOk, length, map, vec_len};
ghost use Rattle.alm_serve.specs.Ports.{AreUnused, IsUnused};

use crate::bound::Bound;
use crate::connection_count::ConnectionCount;
use crate::patience::Patience;
use crate::port_fault::PortFault;
use crate::slot_bell::SlotBell;
use crate::slot_port::SlotPort;
use crate::socket_folder::bind_sockets;
use alm_rings::Told;
use alm_session::Session;
use alm_types::Slot;
use mio::{Events, Poll};
use std::alloc::Global;
use std::fs::{File, Files};
use std::net::Net;
use std::sync::Arc;
use std::time::Clock;

/// How many events one poll reports at most: of the listener, the connection and the bell.
const EVENTS: usize = 4;

/// Binds the ports of these slots.
fn bind_ports<R: Net>(
    rt: &R,
    alloc: Global,
    slots: &[Slot],
    port: u16,
) -> Result<Vec<Bound>, PortFault>
    requires { port ≤ 65518 }
    ensures { IfOk result (λ bounds. map (λ bound. bound.slot) bounds.items ≡ slots.now) }
{
    let mut bounds = Vec::with_capacity(alloc, slots.len())?;
    for slot in slots {
        match bounds.push(Bound::at_port(rt, alloc, port, *slot)?) {
            Ok(()) => {}
            Err(_) => return Err(PortFault::OutOfMemory),
        }
    }
    Ok(bounds)
}

/// The bells of these ports.
fn bells_of(alloc: Global, bounds: &[Bound]) -> Result<Vec<SlotBell>, PortFault>
    ensures { IfOk result (λ bells. vec_len bells ≡ length bounds.now) }
{
    let mut bells = Vec::with_capacity(alloc, bounds.len())?;
    for bound in bounds {
        match bells.push(bound.bell.clone()?) {
            Ok(()) => {}
            Err(_) => return Err(PortFault::OutOfMemory),
        }
    }
    Ok(bells)
}

/// The ports of slots, in their order, with their bells. They can be sources of a run alone whose receipts are of the type `T`.
#[derive(Drop)]
pub struct SlotPorts<'r, R, T> {
    pub ports: Vec<SlotPort<'r, R, T>>,
    pub bells: Vec<SlotBell>,
}

/// What these ports share: how many connections there may be, and a bell of each.
fn count_of(
    alloc: Global,
    conns: u32,
    bounds: &[Bound],
) -> Result<Arc<ConnectionCount>, PortFault> {
    let count = ConnectionCount::new(conns, bells_of(alloc, bounds)?);
    Arc::new(alloc, count).map_err(|_| PortFault::OutOfMemory)
}

/// The port of a slot that is bound.
fn open_port<'r, R: Clock, T: Told + Drop>(
    rt: &'r R,
    alloc: Global,
    bound: Bound,
    count: &Arc<ConnectionCount>,
    patience: Option<&Patience>,
) -> Result<SlotPort<'r, R, T>, PortFault>
    ensures slot { IfOk result (λ port. port.slot ≡ bound.slot) }
    ensures unused { IfOk result IsUnused }
{
    let session = Session::new(alloc)?;
    let events = Events::with_capacity(alloc, EVENTS)?;
    let watch = match patience {
        Some(patience) => Some(patience.watch(rt)?),
        None => None,
    };
    Ok(SlotPort::new(bound, events, count.clone()?, watch, session)?)
}

/// The same for each of these.
fn ports_of<'r, R: Clock, T: Told + Drop>(
    rt: &'r R,
    alloc: Global,
    bounds: Vec<Bound>,
    count: &Arc<ConnectionCount>,
    patience: Option<&Patience>,
) -> Result<Vec<SlotPort<'r, R, T>>, PortFault>
    ensures slots { IfOk result
        (λ ports. map (λ p. p.slot) ports.items ≡ map (λ b. b.slot) bounds.items) }
    ensures unused { IfOk result (λ ports. AreUnused ports.items) }
{
    let mut ports = Vec::with_capacity(alloc, bounds.len())?;
    for bound in bounds {
        match ports.push(open_port(rt, alloc, bound, count, patience)?) {
            Ok(()) => {}
            Err(_) => return Err(PortFault::OutOfMemory),
        }
    }
    Ok(ports)
}

/// Opens as many descriptors as these ports have connections at once, and closes them. If they can't be had, some slots would be
/// served and others not.
fn try_descriptors<R: Net>(rt: &R, alloc: Global, bounds: &[Bound]) -> Result<(), PortFault> {
    let mut spare = Vec::with_capacity(alloc, bounds.len())?;
    for _ in bounds {
        match spare.push(Poll::new(rt)?) {
            Ok(()) => {}
            Err(_) => return Err(PortFault::OutOfMemory),
        }
    }
    Ok(())
}

/// Opens all that is bound, for `conns` connections in all; 0 is without end. There are descriptors for a connection of each.
fn open_all<'r, R: Net + Clock, T: Told + Drop>(
    rt: &'r R,
    alloc: Global,
    bounds: Vec<Bound>,
    conns: u32,
    patience: Option<&Patience>,
) -> Result<SlotPorts<'r, R, T>, PortFault>
    ensures ports { IfOk result
        (λ d. map (λ port. port.slot) d.ports.items ≡ map (λ b. b.slot) bounds.items) }
    ensures unused { IfOk result (λ d. AreUnused d.ports.items) }
    ensures bells { IfOk result (λ d. vec_len d.bells ≡ vec_len bounds) }
{
    try_descriptors(rt, alloc, &bounds)?;
    let count = count_of(alloc, conns, &bounds)?;
    let bells = bells_of(alloc, &bounds)?;
    let ports = ports_of(rt, alloc, bounds, &count, patience)?;
    Ok(SlotPorts { ports, bells })
}

/// Binds the ports of these slots on loopback, the first slot's given, for `conns` connections in all; 0 is without end.
pub fn open_ports<'r, R: Net + Clock, T: Told + Drop>(
    rt: &'r R,
    alloc: Global,
    slots: &[Slot],
    port: u16,
    conns: u32,
    patience: Option<&Patience>,
) -> Result<SlotPorts<'r, R, T>, PortFault>
    requires port { port ≤ 65518 }
    ensures ports { IfOk result (λ d. map (λ port. port.slot) d.ports.items ≡ slots.now) }
    ensures unused { IfOk result (λ d. AreUnused d.ports.items) }
    ensures bells { IfOk result (λ d. vec_len d.bells ≡ length slots.now) }
{
    let bounds = bind_ports(rt, alloc, slots, port)?;
    open_all(rt, alloc, bounds, conns, patience)
}

/// Makes the sockets of these slots in a folder that exists, each by its slot's number, for `conns` connections in all; 0 is
/// without end. Only the owner and the group of a socket may open it. A dead server's socket is replaced. One that answers is
/// refused, and so is anything else at its path, which stays as it is. The sockets stay after the server's end.
pub fn open_sockets<'r, R: Net + Clock + Files<File = File>, T: Told + Drop>(
    rt: &'r R,
    alloc: Global,
    slots: &[Slot],
    folder: &str,
    conns: u32,
    patience: Option<&Patience>,
) -> Result<SlotPorts<'r, R, T>, PortFault>
    ensures ports { IfOk result (λ d. map (λ port. port.slot) d.ports.items ≡ slots.now) }
    ensures unused { IfOk result (λ d. AreUnused d.ports.items) }
    ensures bells { IfOk result (λ d. vec_len d.bells ≡ length slots.now) }
{
    let bounds = bind_sockets(rt, alloc, slots, folder)?;
    open_all(rt, alloc, bounds, conns, patience)
}
