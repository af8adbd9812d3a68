//! The stream of a slot's connection.

use mio::event::Source;
use mio::net::{TcpStream, UnixStream};
use mio::{Interest, Registry, Token};
use std::io::{self, Read, Write};

/// The stream of a slot's connection, by a port or by a socket in a folder. It never waits.
#[derive(Drop)]
pub enum SlotStream {
    Port(TcpStream),
    Socket(UnixStream),
}

impl SlotStream {
    /// Has a poll report it, and replies go out immediately.
    pub fn register(&mut self, registry: &Registry, token: Token) -> io::Result<()> {
        let all = Interest::READABLE | Interest::WRITABLE | Interest::PRIORITY;
        match self {
            SlotStream::Port(stream) => {
                stream.register(registry, token, all)?;
                stream.set_nodelay(true)
            }
            SlotStream::Socket(stream) => stream.register(registry, token, all),
        }
    }

    /// Whether a read may leave bytes in the stream though it returned fewer than there was room for: at a Unix socket a read
    /// ends where a client passed descriptors.
    pub fn reads_in_parts(&self) -> bool {
        matches!(self, SlotStream::Socket(_))
    }
}

impl Read for SlotStream {
    fn read(&mut self, into: &mut [u8]) -> io::Result<usize> {
        match self {
            SlotStream::Port(stream) => stream.read(into),
            SlotStream::Socket(stream) => stream.read(into),
        }
    }
}

impl Write for SlotStream {
    fn write(&mut self, bytes: &[u8]) -> io::Result<usize> {
        match self {
            SlotStream::Port(stream) => stream.write(bytes),
            SlotStream::Socket(stream) => stream.write(bytes),
        }
    }

    fn flush(&mut self) -> io::Result<()> {
        Ok(())
    }
}
