//! A socket that listens.

use crate::slot_stream::SlotStream;
use mio::event::Source;
use mio::net::{TcpListener, UnixListener};
use mio::{Interest, Registry, Token};
use std::io;

/// A socket that listens: a port of loopback, or a socket in a folder. Neither waits.
#[derive(Drop)]
pub enum ListeningSocket {
    Port(TcpListener),
    Folder(UnixListener),
}

impl ListeningSocket {
    /// Has a poll report its connections.
    pub fn register(&mut self, registry: &Registry, token: Token) -> io::Result<()> {
        match self {
            ListeningSocket::Port(listener) => {
                listener.register(registry, token, Interest::READABLE)
            }
            ListeningSocket::Folder(listener) => {
                listener.register(registry, token, Interest::READABLE)
            }
        }
    }

    /// The stream of the next connection.
    pub fn next(&self) -> io::Result<SlotStream> {
        match self {
            ListeningSocket::Port(listener) => Ok(SlotStream::Port(listener.accept()?.0)),
            ListeningSocket::Folder(listener) => Ok(SlotStream::Socket(listener.accept()?.0)),
        }
    }
}
