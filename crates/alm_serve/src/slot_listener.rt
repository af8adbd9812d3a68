//! What a slot listens at.

ghost use Rattle.std.specs.Prelude.{◌≡◌, false};
ghost use Rattle.alm_types.specs.Counts.{one_more};

use crate::listening_socket::ListeningSocket;
use crate::slot_stream::SlotStream;
use crate::stream_wire::StreamWire;
use crate::traffic::Traffic;
use mio::{Registry, Token};
use std::io;

/// What a slot listens at. It counts how often no connection could be had, up to the greatest number.
#[derive(Drop)]
pub struct SlotListener {
    socket: ListeningSocket,
    nobody: u64,
}

impl SlotListener {
    ghost use Rattle.std.specs.Prelude.{◌≡◌, None, IfErr, IfOk, IfSome};
    ghost use Rattle.alm_types.specs.Counts.{one_more};

    /// A slot that listens at this socket.
    pub fn new(socket: ListeningSocket) -> Self {
        SlotListener { socket, nobody: 0 }
    }

    /// Has a poll report its connections.
    pub fn register(&mut self, registry: &Registry, token: Token) -> io::Result<()> {
        self.socket.register(registry, token)
    }

    /// The stream of the next connection.
    fn next(&mut self) -> io::Result<SlotStream>
        ensures nobody { IfErr result (λ _. self.new.nobody ≡ one_more self.old.nobody) }
    {
        match self.socket.next() {
            Ok(stream) => Ok(stream),
            Err(error) => {
                self.nobody = self.nobody.saturating_add(1);
                Err(error)
            }
        }
    }

    /// The wire of the next connection, with the bytes of the slot's connections before it. The poll reports it by this token;
    /// there is none if it can't. Nothing is read or written.
    pub fn accept(
        &mut self,
        registry: &Registry,
        token: Token,
        traffic: &mut Traffic,
    ) -> io::Result<Option<StreamWire<SlotStream>>>
        ensures wire { IfOk result (λ next. IfSome next (λ wire. wire.traffic ≡ traffic.old)) }
        ensures unheard { IfOk result (λ next. next ≡ None → traffic.new ≡ traffic.old) }
        ensures none { IfErr result (λ _. traffic.new ≡ traffic.old) }
        ensures nobody { IfErr result (λ _. self.new.nobody ≡ one_more self.old.nobody) }
    {
        let mut stream = match self.next() {
            Ok(stream) => stream,
            Err(error) => return Err(error),
        };
        if stream.register(registry, token).is_err() {
            return Ok(None);
        }
        let reads_on = stream.reads_in_parts();
        let mut wire = StreamWire::new(stream, std::mem::replace(traffic, Traffic::new()));
        wire.find_ready(reads_on);
        Ok(Some(wire))
    }

    /// Closes the next connection: whether there was one.
    pub fn turn_away(&mut self) -> bool {
        self.next().is_ok()
    }
}
