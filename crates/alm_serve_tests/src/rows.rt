//! Rows of the server.

use crate::client::{asks, connect, gives};
use crate::latch::Latch;
use crate::one_sync::OneSync;
use crate::ports::free_ports;
use alm_common_tests::{holds_at, same, same_at};
use alm_desk::worked_table;
use alm_disk::{HeldDisk, MemDisk, OnceDisk};
use alm_keeper::{OpenFault, format};
use alm_serve::{ServeFault, serve_run};
use std::alloc::{AllocError, Global};
use std::io::{self, Read, Write};
use std::net::{Ipv4Addr, Shutdown, SocketAddr, TcpListener};
use std::sync::Arc;
use std::test::Fail;
use std::thread;

/// Opening a device makes a sync and five reads.
const OPENING_CALLS: u64 = 6;

/// How many calls an action's commit makes.
const COMMIT_CALLS: u64 = 4;

/// A device in memory that is formatted for the worked table.
pub fn worked_disk(alloc: Global) -> Result<Option<MemDisk>, AllocError> {
    let table = worked_table(alloc)?;
    let disk = MemDisk::new(alloc, vec![in alloc; 0_u8; 28_997]?, 100_000)?;
    match format(alloc, disk, &table) {
        Ok(disk) => Ok(Some(disk)),
        Err(_) => Ok(None),
    }
}

/// The feed raises an alarm, and a console acknowledges it.
fn two_clients(rt: &HostRuntime, port: u16) -> io::Result<bool> {
    let mut feed = connect(rt, port.saturating_add(16))?;
    let raised = asks(&mut feed, b"1 VAL 0 800\n", b"1 OK 1\n")?;
    drop(feed);
    let mut console = connect(rt, port)?;
    let seen = asks(
        &mut console,
        b"2 ACK 0\n3 STATE 0\n",
        b"2 OK 2\n3 STATE 2 ACKED 1 - -\n",
    )?;
    Ok(raised && seen)
}

#[test]
fn two_connections(rt: HostRuntime) -> Result<(), Fail> {
    let port = free_ports(&rt)?;
    let disk = worked_disk(rt.alloc())?.ok_or("format")?;
    let clients = thread::spawn(&rt, move || two_clients(&rt, port))?;
    let mut output = Vec::new(rt.alloc());
    let served = serve_run(&rt, rt.alloc(), disk, port, 2, &mut output);
    assert!(rt; served == Ok(2));
    let said = format!(in rt.alloc(); "serving {port}\nstopped 2\n")?;
    same(output.as_slice(), said.as_bytes())?;
    assert!(rt; clients.join(&rt)?);
    Ok(())
}

/// Whether the client of each slot is answered at its port as its role has it: 16 consoles, the feed, the clock.
fn client_of_each_slot(rt: &HostRuntime, first: u16) -> io::Result<bool> {
    let mut answered = true;
    for number in 0..16_u16 {
        let mut console = connect(rt, first.saturating_add(number))?;
        let lines = b"1 ACK 0\n2 VAL 0 800\n3 CLOCK 1000\n";
        answered &= asks(&mut console, lines, b"1 NO 2\n2 NO 11\n3 NO 11\n")?;
    }
    let mut feed = connect(rt, first.saturating_add(16))?;
    answered &= asks(&mut feed, b"1 ACK 0\n2 VAL 0 800\n", b"1 NO 11\n2 OK 1\n")?;
    let mut clock = connect(rt, first.saturating_add(17))?;
    answered &= asks(
        &mut clock,
        b"1 VAL 0 800\n2 CLOCK 1000\n",
        b"1 NO 11\n2 OK 2\n",
    )?;
    Ok(answered)
}

/// Slot k answers at the k-th port after the first one, whichever that is.
#[test]
fn each_slot_at_its_port(rt: HostRuntime) -> Result<(), Fail> {
    let port = free_ports(&rt)?;
    let taken = take_port(&rt, port)?;
    let other = free_ports(&rt)?;
    drop(taken);
    assert_ne!(rt; port, other);
    for first in [port, other] {
        let disk = worked_disk(rt.alloc())?.ok_or("format")?;
        let clients = thread::spawn(&rt, move || client_of_each_slot(&rt, first))?;
        let mut output = Vec::new(rt.alloc());
        let served = serve_run(&rt, rt.alloc(), disk, first, 18, &mut output);
        assert!(rt; served == Ok(2));
        assert!(rt; clients.join(&rt)?);
    }
    Ok(())
}

/// Takes a port of loopback.
fn take_port(rt: &HostRuntime, port: u16) -> io::Result<TcpListener> {
    TcpListener::bind(rt, SocketAddr::from((Ipv4Addr::LOCALHOST, port)))
}

/// A port that can't be had is a fault before anything is written.
#[test]
fn a_port_that_is_taken(rt: HostRuntime) -> Result<(), Fail> {
    let port = free_ports(&rt)?;
    let disk = worked_disk(rt.alloc())?.ok_or("format")?;
    let taken = take_port(&rt, port.saturating_add(5))?;
    let mut output = Vec::new(rt.alloc());
    let served = serve_run(&rt, rt.alloc(), disk, port, 1, &mut output);
    assert!(rt; served == Err(ServeFault::Net));
    assert!(rt; output.is_empty());
    drop(taken);
    Ok(())
}

/// A device that isn't formatted is a fault before any port is bound.
#[test]
fn a_device_that_is_not_formatted(rt: HostRuntime) -> Result<(), Fail> {
    let disk = MemDisk::new(rt.alloc(), vec![in rt.alloc(); 0_u8; 28_997]?, 100)?;
    let port = free_ports(&rt)?;
    let taken = take_port(&rt, port)?;
    let mut output = Vec::new(rt.alloc());
    let served = serve_run(&rt, rt.alloc(), disk, port, 1, &mut output);
    assert!(rt; served == Err(ServeFault::Open(OpenFault::Unformatted)));
    assert!(rt; output.is_empty());
    drop(taken);
    Ok(())
}

/// A client that stalls within a line, one that never reads, one that closes with requests unanswered, and one that sends single
/// bytes and closes half. The last two end, and the next one at their slot gets nothing of theirs. Another slot is served
/// meanwhile.
fn hostile_clients(rt: &HostRuntime, port: u16) -> io::Result<bool> {
    let mut stalled = connect(rt, port.saturating_add(1))?;
    stalled.write_all(b"1 STA")?;
    let mut deaf = connect(rt, port.saturating_add(2))?;
    for _line in 0..2000_u32 {
        deaf.write_all(b"1 LIST P 1\n")?;
    }
    let mut gone = connect(rt, port.saturating_add(3))?;
    for _line in 0..100_u32 {
        gone.write_all(b"1 ACK 0\n")?;
    }
    drop(gone);
    let mut half = connect(rt, port.saturating_add(3))?;
    for byte in b"7 STATE 0\n8 ACK 0\n9 STA" {
        half.write_all(&[*byte])?;
    }
    half.shutdown(Shutdown::Write)?;
    let answered = gives(&mut half, b"7 STATE 0 NORM 0 - -\n8 NO 2\n")?;
    let ended = half.read(&mut [0_u8; 1])? == 0;
    let mut next = connect(rt, port.saturating_add(3))?;
    let began = asks(&mut next, b"1 STATE 0\n", b"1 STATE 0 NORM 0 - -\n")?;
    let mut console = connect(rt, port)?;
    let served = asks(&mut console, b"3 STATE 0\n", b"3 STATE 0 NORM 0 - -\n")?;
    Ok(answered && ended && began && served)
}

#[test]
fn clients_that_mean_no_good(rt: HostRuntime) -> Result<(), Fail> {
    let port = free_ports(&rt)?;
    let disk = worked_disk(rt.alloc())?.ok_or("format")?;
    let clients = thread::spawn(&rt, move || hostile_clients(&rt, port))?;
    let mut output = Vec::new(rt.alloc());
    let served = serve_run(&rt, rt.alloc(), disk, port, 4, &mut output);
    assert!(rt; served == Ok(0));
    let said = format!(in rt.alloc(); "serving {port}\nstopped 0\n")?;
    same(output.as_slice(), said.as_bytes())?;
    assert!(rt; clients.join(&rt)?);
    Ok(())
}

/// A client closes with a reply unread and an action unanswered. The next one at its slot is answered after that action.
fn two_in_a_row(rt: &HostRuntime, port: u16, latch: &Latch) -> io::Result<bool> {
    let mut lost = connect(rt, port.saturating_add(17))?;
    lost.write_all(b"1 STATE 0\n2 CLOCK 1000\n")?;
    let read = lost.read(&mut [0_u8; 1])?;
    drop(lost);
    let mut next = connect(rt, port.saturating_add(17))?;
    let behind = asks(&mut next, b"3 STATE 0\n", b"3 STATE 1 NORM 0 - -\n")?;
    latch.answer();
    Ok(read == 1 && behind)
}

/// A connection is accepted after the requests of the one before are answered.
#[test]
fn a_connection_behind_a_lost_one(rt: HostRuntime) -> Result<(), Fail> {
    let port = free_ports(&rt)?;
    let disk = worked_disk(rt.alloc())?.ok_or("format")?;
    let latch = Arc::new(rt.alloc(), Latch::new())?;
    let disk = HeldDisk::new(disk, Arc::try_clone(&latch)?);
    let clients = thread::spawn(&rt, move || two_in_a_row(&rt, port, &latch))?;
    let mut output = Vec::new(rt.alloc());
    let served = serve_run(&rt, rt.alloc(), disk, port, 2, &mut output);
    assert!(rt; served == Ok(1));
    let said = format!(in rt.alloc(); "serving {port}\nstopped 1\n")?;
    same(output.as_slice(), said.as_bytes())?;
    assert!(rt; clients.join(&rt)?);
    Ok(())
}

/// The feed sends a value, and its connection ends without an answer.
fn unanswered_client(rt: &HostRuntime, port: u16) -> io::Result<bool> {
    let mut feed = connect(rt, port.saturating_add(16))?;
    feed.write_all(b"1 VAL 0 800\n")?;
    Ok(matches!(feed.read(&mut [0_u8; 1]), Ok(0) | Err(_)))
}

/// A device that fails after it is served ends the server, and no client is answered.
#[test]
fn a_device_that_fails_while_it_is_served(rt: HostRuntime) -> Result<(), Fail> {
    let port = free_ports(&rt)?;
    let disk = worked_disk(rt.alloc())?.ok_or("format")?;
    let disk = HeldDisk::new(disk, OneSync::new());
    let clients = thread::spawn(&rt, move || unanswered_client(&rt, port))?;
    let mut output = Vec::new(rt.alloc());
    let served = serve_run(&rt, rt.alloc(), disk, port, 1, &mut output);
    assert!(rt; served == Err(ServeFault::Storage));
    let said = format!(in rt.alloc(); "serving {port}\n")?;
    same(output.as_slice(), said.as_bytes())?;
    assert!(rt; clients.join(&rt)?);
    Ok(())
}

/// A device that fails one call of its opening, whichever it is, is a fault before any port is bound.
#[test]
fn a_device_that_fails_as_it_is_opened(rt: HostRuntime) -> Result<(), Fail> {
    let port = free_ports(&rt)?;
    let taken = take_port(&rt, port)?;
    for call in 1..=OPENING_CALLS {
        let disk = OnceDisk::new(worked_disk(rt.alloc())?.ok_or("format")?, call);
        let mut output = Vec::new(rt.alloc());
        let served = serve_run(&rt, rt.alloc(), disk, port, 1, &mut output);
        holds_at(call, served == Err(ServeFault::Open(OpenFault::Disk)))?;
        holds_at(call, output.is_empty())?;
    }
    drop(taken);
    Ok(())
}

/// A device that fails one call of an action's commit ends the server. The action isn't answered, even if all later calls would
/// be served.
#[test]
fn a_device_that_fails_one_call_of_an_action(rt: HostRuntime) -> Result<(), Fail> {
    for call in 1..=COMMIT_CALLS {
        let port = free_ports(&rt)?;
        let disk = worked_disk(rt.alloc())?.ok_or("format")?;
        let disk = OnceDisk::new(disk, OPENING_CALLS.saturating_add(call));
        let clients = thread::spawn(&rt, move || unanswered_client(&rt, port))?;
        let mut output = Vec::new(rt.alloc());
        let served = serve_run(&rt, rt.alloc(), disk, port, 1, &mut output);
        holds_at(call, served == Err(ServeFault::Storage))?;
        let said = format!(in rt.alloc(); "serving {port}\n")?;
        same_at(call, output.as_slice(), said.as_bytes())?;
        holds_at(call, clients.join(&rt)?)?;
    }
    Ok(())
}
