//! The service of a slot, over any wire.

ghost use Rattle.std.specs.Prelude.{◌≡◌};

use crate::connection::Connection;
use crate::served::Served;
use crate::stream_wire::StreamWire;
use alm_board::{FreeLook, Recall};
use alm_rings::{Console, Told};
use alm_session::{Session, Turn, Wire, drain};
use std::io::{Read, Write};

/// The service of a slot, over any wire: one connection after another, each answered by the slot's session.
///
/// | connection | a step |
/// |---|---|
/// | there is none | [`Served::Idle`] |
/// | open | a turn of its session. If the turn ended or failed, the connection has ended: [`Served::Closed`] with its wire |
/// | has ended | drops the receipts of its requests; [`Served::Over`] once all are answered |
#[derive(Drop)]
pub struct SlotService<W> {
    pub session: Session,
    pub connection: Connection<W>,
}

impl<W> SlotService<W> {
    ghost use Rattle.std.specs.Prelude.{◌≡◌, ◌↔◌, IsTrue};
    ghost use Rattle.alm_serve.specs.declared.connection.Connection.TheVariants as connection;

    /// The service of a slot for which no connection has come.
    pub fn new(session: Session) -> Self
        ensures session { result.session ≡ session }
        ensures connection { result.connection ≡ connection.Awaited }
    {
        SlotService {
            session,
            connection: Connection::Awaited,
        }
    }

    /// Whether the next connection may begin.
    pub fn is_awaited(&self) -> bool
        ensures { IsTrue result ↔ (self.now.connection ≡ connection.Awaited) }
    {
        matches!(self.connection, Connection::Awaited)
    }
}

impl<W: Wire + Drop> SlotService<W> {
    ghost use Rattle.std.specs.Prelude.{◌≡◌};
    ghost use Rattle.alm_rings.specs.Ends.{SameConsole};
    ghost use Rattle.alm_session.specs.Draining.{DropsReceipts};
    ghost use Rattle.alm_session.specs.Turns.{between};
    ghost use Rattle.alm_serve.specs.declared.connection.Connection.TheVariants as connection;
    ghost use Rattle.alm_serve.specs.declared.served.Served.TheVariants as served;
    ghost use Rattle.alm_serve.specs.Service.{IsFresh, Settles, StepsByTurn, wire_of};

    /// A connection begins over this wire: no byte of it has come, and none is to be written.
    pub fn begin(&mut self, wire: W)
        requires { self.old.connection ≡ connection.Awaited }
        ensures connection { self.new.connection ≡ connection.Open wire }
        ensures fresh { IsFresh self.new.session.intake self.new.session.waiting.items
            self.new.session.output.left }
        ensures refused { self.new.session.answer.refused ≡ self.old.session.answer.refused }
    {
        self.session.restart();
        self.connection = Connection::Open(wire);
    }

    /// Ends the connection, whatever of it is unanswered or unwritten. Its wire, if one was open.
    pub fn close(&mut self) -> Option<W>
        ensures connection { self.new.connection ≡ connection.Ended }
        ensures wire { result ≡ wire_of self.old.connection }
        ensures session { self.new.session ≡ self.old.session }
    {
        match std::mem::replace(&mut self.connection, Connection::Ended) {
            Connection::Open(wire) => Some(wire),
            Connection::Awaited | Connection::Ended => None,
        }
    }

    /// Does what can be done without waiting.
    pub fn step<T: Told + Drop, L: FreeLook<Told = T> + Recall>(
        &mut self,
        console: &mut Console<T>,
        look: &mut L,
    ) -> Served<W>
        ensures base { L.Look.base look.new ≡ L.Look.base look.old }
        ensures end { SameConsole console.old console.new }
        // Without a connection nothing is sent, received, learnt or written.
        ensures awaited { self.old.connection ≡ connection.Awaited →
            (result ≡ served.Idle) × (self.new ≡ self.old) × (console.new ≡ console.old) ×
            (look.new ≡ look.old) }
        // A step of an open connection is a turn of its session over its wire.
        ensures open { StepsByTurn W.Wire (between L.Look.looked L.Recall.recalled look.old look.new)
            (L.Look.base look.old) self.old self.new (L.Look.knows look.old)
            (L.Look.knows look.new) console.old console.new result }
        // What an ended connection leaves is received and dropped, and nothing is sent.
        ensures ended { self.old.connection ≡ connection.Ended →
            Settles result self.new.connection console.new ×
            (self.new.session ≡ self.old.session) ×
            DropsReceipts (L.Look.base look.old) (L.Look.knows look.old) (L.Look.knows look.new)
            console.old console.new }
    {
        match &mut self.connection {
            Connection::Awaited => Served::Idle,
            Connection::Open(wire) => match self.session.turn(wire, console, look) {
                Turn::Went => Served::Went,
                Turn::Idle => Served::Idle,
                Turn::Ended | Turn::Fault => match self.close() {
                    Some(wire) => Served::Closed(wire),
                    None => unreachable!(),
                },
            },
            Connection::Ended => {
                if !drain(console, look) {
                    return Served::Idle;
                }
                self.connection = Connection::Awaited;
                Served::Over
            }
        }
    }
}

impl<S: Read + Write + Drop> SlotService<StreamWire<S>> {
    ghost use Rattle.std.specs.Prelude.{◌≡◌};
    ghost use Rattle.alm_serve.specs.Service.{by_wire, stage};
    ghost use Rattle.alm_serve.specs.StreamWires.{wire_counts};

    /// A poll found the stream ready, as [`StreamWire::find_ready`] has it. Nothing is read or written.
    pub fn find_ready(&mut self, reads_on: bool)
        ensures session { self.new.session ≡ self.old.session }
        ensures stage { stage self.new.connection ≡ stage self.old.connection }
        ensures stream { by_wire (λ wire. wire.stream) self.new.connection ≡
            by_wire (λ wire. wire.stream) self.old.connection }
        ensures traffic { by_wire (λ wire. wire.traffic) self.new.connection ≡
            by_wire (λ wire. wire.traffic) self.old.connection }
        ensures counts { by_wire wire_counts self.new.connection ≡
            by_wire wire_counts self.old.connection }
    {
        if let Connection::Open(wire) = &mut self.connection {
            wire.find_ready(reads_on);
        }
    }
}
