//! A server at the sockets of a folder.

use crate::client::asks;
use crate::rows::worked_disk;
use alm_common_tests::same;
use alm_serve::{ServeFault, serve_sockets};
use alm_wake::Healing;
use std::fs::{self, File, Files};
use std::io;
use std::net::Net;
use std::os::unix::fs::{FileTypeExt, MetadataExt, symlink};
use std::os::unix::net::{UnixListener, UnixStream};
use std::sync::Wait;
use std::test::Fail;
use std::thread::{self, Threads};
use std::time::{Clock, Duration};

/// The bits of a mode that say who may do what.
const PERMISSIONS: u32 = 0o7777;

/// How often a client tries to connect, and its pause, in milliseconds.
const TRIES: u32 = 2000;

const PAUSE: u64 = 5;

/// The path of a slot's socket.
fn path_of(rt: &HostRuntime, folder: &str, slot: u8) -> io::Result<String> {
    Ok(format!(in rt.alloc(); "{folder}/{slot}")?)
}

/// Connects to a slot's socket, as soon as a server listens there: it tries for some seconds.
fn connect(rt: &HostRuntime, folder: &str, slot: u8) -> io::Result<UnixStream> {
    let path = path_of(rt, folder, slot)?;
    for _ in 0..TRIES {
        if let Ok(stream) = UnixStream::connect(rt, path.as_str()) {
            return Ok(stream);
        }
        thread::sleep(rt, Duration::from_millis(PAUSE));
    }
    UnixStream::connect(rt, path.as_str())
}

/// The feed raises an alarm, and a console acknowledges it.
fn two_clients(rt: &HostRuntime, folder: &str) -> io::Result<bool> {
    let mut feed = connect(rt, folder, 16)?;
    let raised = asks(&mut feed, b"1 VAL 0 800\n", b"1 OK 1\n")?;
    drop(feed);
    let mut console = connect(rt, folder, 0)?;
    let seen = asks(
        &mut console,
        b"2 ACK 0\n3 STATE 0\n",
        b"2 OK 2\n3 STATE 2 ACKED 1 - -\n",
    )?;
    Ok(raised && seen)
}

/// Whether a folder has exactly 18 sockets, which only their owner and their group may open.
fn has_sockets(rt: &HostRuntime, folder: &str) -> io::Result<bool> {
    for slot in 0..18_u8 {
        let found = fs::symlink_metadata(rt, path_of(rt, folder, slot)?.as_str())?;
        if !found.file_type().is_socket() || found.mode() & PERMISSIONS != 0o660 {
            return Ok(false);
        }
    }
    Ok(fs::read_dir(rt, folder)?.count() == 18)
}

/// Two servers, one after the other: the second one's sockets replace those that the first one left.
#[test]
fn two_connections_at_sockets(rt: HostRuntime) -> Result<(), Fail> {
    let folder = "two_connections.sockets";
    fs::create_dir(&rt, folder)?;
    for _run in 0..2_u32 {
        let disk = worked_disk(rt.alloc())?.ok_or("format")?;
        let clients = thread::spawn(&rt, move || two_clients(&rt, folder))?;
        let mut output = Vec::new(rt.alloc());
        let served = serve_sockets(
            &rt,
            rt.alloc(),
            disk,
            folder,
            2,
            None,
            &Healing::new(),
            &mut output,
        )
        .served;
        assert!(rt; served == Ok(2));
        let said = format!(in rt.alloc(); "serving {folder}\nstopped 2\n")?;
        same(output.as_slice(), said.as_bytes())?;
        assert!(rt; clients.join(&rt)?);
        assert!(rt; has_sockets(&rt, folder)?);
    }
    fs::remove_dir_all(&rt, folder)?;
    Ok(())
}

/// Whether the slots can't be served there, before anything is written.
fn is_refused<R: Net + Files<File = File> + Threads + Wait + Clock + Sync + AllocGlobal>(
    rt: &R,
    folder: &str,
) -> Result<bool, Fail> {
    let disk = worked_disk(rt.alloc())?.ok_or("format")?;
    let mut output = Vec::new(rt.alloc());
    let served = serve_sockets(
        rt,
        rt.alloc(),
        disk,
        folder,
        1,
        None,
        &Healing::new(),
        &mut output,
    )
    .served;
    Ok(served == Err(ServeFault::Net) && output.is_empty())
}

/// A file, a folder and a link at a socket's path, and a socket at which a server listens, are refused, and stay what they were.
/// A dead socket next to them stays too, and no other one is made.
#[test]
fn what_is_no_dead_socket_stays(rt: HostRuntime) -> Result<(), Fail> {
    let folder = "what_stays.sockets";
    fs::create_dir(&rt, folder)?;
    drop(UnixListener::bind(&rt, path_of(&rt, folder, 3)?.as_str())?);
    let path = path_of(&rt, folder, 5)?;
    fs::write(&rt, path.as_str(), "text")?;
    assert!(rt; is_refused(&rt, folder)?);
    assert!(rt; fs::read_to_string(&rt, path.as_str())?.as_str() == "text");
    fs::remove_file(&rt, path.as_str())?;
    fs::create_dir(&rt, path.as_str())?;
    assert!(rt; is_refused(&rt, folder)?);
    fs::remove_dir(&rt, path.as_str())?;
    symlink(&rt, "nothing", path.as_str())?;
    assert!(rt; is_refused(&rt, folder)?);
    fs::remove_file(&rt, path.as_str())?;
    let listener = UnixListener::bind(&rt, path.as_str())?;
    assert!(rt; is_refused(&rt, folder)?);
    assert!(rt; listener.accept().is_ok());
    let found = fs::read_dir(&rt, folder)?.count();
    same(found, 2)?;
    fs::remove_dir_all(&rt, folder)?;
    Ok(())
}

/// These are refused too: a folder that doesn't exist, a file in its place, a path too long for a socket, and a folder
/// in use by another server.
#[test]
fn folders_without_sockets(rt: HostRuntime) -> Result<(), Fail> {
    let folder = "without.sockets";
    assert!(rt; is_refused(&rt, folder)?);
    assert!(rt; is_refused(&rt, "")?);
    fs::write(&rt, folder, "text")?;
    assert!(rt; is_refused(&rt, folder)?);
    fs::remove_file(&rt, folder)?;
    fs::create_dir(&rt, folder)?;
    let long = format!(in rt.alloc(); "{folder}{:/>107}", "")?;
    assert!(rt; is_refused(&rt, long.as_str())?);
    let held = File::open(&rt, folder)?;
    held.try_lock().map_err(io::Error::from)?;
    assert!(rt; is_refused(&rt, folder)?);
    same(fs::read_dir(&rt, folder)?.count(), 0)?;
    fs::remove_dir(&rt, folder)?;
    Ok(())
}
