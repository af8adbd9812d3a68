//! The sockets of a folder.

ghost use Rattle.std.specs.Prelude.{◌≡◌, IfOk, map};

use crate::bound::Bound;
use crate::listening_socket::ListeningSocket;
use crate::port_fault::PortFault;
use crate::slot_listener::SlotListener;
use alm_types::Slot;
use mio::net::{UnixListener, UnixStream};
use std::alloc::{AllocError, Global};
use std::fs::{self, File, Files, Permissions};
use std::io::{self, ErrorKind};
use std::net::Net;
use std::os::fd::{AsFd, AsRawFd};
use std::os::unix::fs::{FileTypeExt, PermissionsExt};
use std::os::unix::net::{self, SocketAddr};

/// The mode of a socket: its owner and its group may connect, and nobody else.
const MODE: u32 = 0o660;

/// How many connections may wait to be accepted: as many as the system allows.
const MOST_WAITING: i32 = -1;

/// Keeps other servers from making sockets in a folder, until it is dropped. It is refused if there is no such folder, or if
/// another server is making its sockets there.
fn lock<R: Files<File = File>>(rt: &R, folder: &str) -> io::Result<File> {
    if !fs::metadata(rt, folder)?.is_dir() {
        return Err(io::Error::from(ErrorKind::NotADirectory));
    }
    let opened = File::open(rt, folder)?;
    opened.try_lock().map_err(io::Error::from)?;
    Ok(opened)
}

/// The path of a slot's socket.
fn path_of(alloc: Global, folder: &str, slot: Slot) -> Result<String, AllocError> {
    format!(in alloc; "{folder}/{}", slot.number())
}

/// Whether nobody listens at a socket any more.
fn is_dead<R: Net>(rt: &R, address: &SocketAddr) -> bool {
    match UnixStream::connect_addr(rt, address) {
        Err(error) => error.kind() == ErrorKind::ConnectionRefused,
        Ok(_) => false,
    }
}

/// Whether a dead server's socket is at a path. It is refused if anything else is, or if the path is too long for a socket.
fn has_dead_socket<R: Net + Files>(rt: &R, path: &str) -> Result<bool, PortFault> {
    let address = SocketAddr::from_pathname(path)?;
    match fs::symlink_metadata(rt, path) {
        Err(error) if error.kind() == ErrorKind::NotFound => Ok(false),
        Err(error) => Err(PortFault::from(error)),
        Ok(found) if found.file_type().is_socket() && is_dead(rt, &address) => Ok(true),
        Ok(_) => Err(PortFault::Net),
    }
}

/// Listens at a free path. Nobody connects before the socket has its mode.
fn listen_at<R: Net + Files>(rt: &R, path: &str) -> Result<UnixListener, PortFault> {
    let address = SocketAddr::from_pathname(path)?;
    let socket = rt.unix_socket()?;
    rt.bind_unix(socket.as_fd(), &address)?;
    fs::set_permissions(rt, path, Permissions::from_mode(MODE))?;
    if libc::net::listen(socket.as_raw_fd(), MOST_WAITING) < 0 {
        return Err(PortFault::Net);
    }
    let listener = net::UnixListener::from(socket);
    listener.set_nonblocking(true)?;
    Ok(UnixListener::from_std(listener))
}

/// Makes the socket of a slot, and replaces a dead server's.
fn bind_one<R: Net + Files>(
    rt: &R,
    alloc: Global,
    folder: &str,
    slot: Slot,
) -> Result<Bound, PortFault>
    ensures { IfOk result (λ bound. bound.slot ≡ slot) }
{
    let path = path_of(alloc, folder, slot)?;
    if has_dead_socket(rt, path.as_str())? {
        fs::remove_file(rt, path.as_str())?;
    }
    let listener = listen_at(rt, path.as_str())?;
    Bound::new(
        rt,
        alloc,
        SlotListener::new(ListeningSocket::Folder(listener)),
        slot,
    )
}

/// Refuses a folder in which a slot can't have its socket.
fn refuse_taken<R: Net + Files>(
    rt: &R,
    alloc: Global,
    slots: &[Slot],
    folder: &str,
) -> Result<(), PortFault> {
    for slot in slots {
        has_dead_socket(rt, path_of(alloc, folder, *slot)?.as_str())?;
    }
    Ok(())
}

/// Makes the sockets of these slots.
fn bind_all<R: Net + Files>(
    rt: &R,
    alloc: Global,
    slots: &[Slot],
    folder: &str,
) -> Result<Vec<Bound>, PortFault>
    ensures { IfOk result (λ bounds. map (λ bound. bound.slot) bounds.items ≡ slots.now) }
{
    let mut bounds = Vec::with_capacity(alloc, slots.len())?;
    for slot in slots {
        match bounds.push(bind_one(rt, alloc, folder, *slot)?) {
            Ok(()) => {}
            Err(_) => return Err(PortFault::OutOfMemory),
        }
    }
    Ok(bounds)
}

/// Makes the sockets of these slots in a folder, each by its slot's number. All paths are checked before the first socket is made:
/// if one is refused, nothing in the folder changes.
pub fn bind_sockets<R: Net + Files<File = File>>(
    rt: &R,
    alloc: Global,
    slots: &[Slot],
    folder: &str,
) -> Result<Vec<Bound>, PortFault>
    ensures { IfOk result (λ bounds. map (λ bound. bound.slot) bounds.items ≡ slots.now) }
{
    let lock = lock(rt, folder)?;
    refuse_taken(rt, alloc, slots, folder)?;
    let bounds = bind_all(rt, alloc, slots, folder);
    drop(lock);
    bounds
}
