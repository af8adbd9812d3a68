//! One slot's port.

ghost use Rattle.std.specs.Prelude.{◌≡◌, IsTrue};
ghost use Rattle.alm_serve.specs.Service.{IsLate, by_wire, stage};
ghost use Rattle.alm_serve.specs.StreamWires.{wire_counts};

use crate::bound::Bound;
use crate::call_watch::CallWatch;
use crate::connection_count::ConnectionCount;
use crate::served::Served;
use crate::slot_bell::SlotBell;
use crate::slot_listener::SlotListener;
use crate::slot_service::SlotService;
use crate::slot_stream::SlotStream;
use crate::stream_wire::StreamWire;
use crate::traffic::Traffic;
use alm_board::{FreeLook, Recall};
use alm_rings::{Console, Told};
use alm_session::Session;
use alm_threads::{Go, Source};
use alm_types::Slot;
use mio::{Events, Poll, Token};
use std::io;
use std::marker::PhantomData;
use std::sync::Arc;
use std::time::{Clock, Duration};

/// The tokens of what is polled. That of the stream alone is read: after each poll all else is tried.
const LISTENER: Token = Token(0);

const STREAM: Token = Token(1);

/// How long a poll takes at most, in milliseconds.
const SLEEP: u64 = 1000;

/// Whether a device call takes longer than it may.
fn is_stuck<R: Clock>(watch: &mut Option<CallWatch<'_, R>>) -> bool
    ensures { IsTrue result → IsLate watch.old watch.new }
{
    match watch {
        Some(watch) => watch.is_over(),
        None => false,
    }
}

/// Passes to the wire what a poll found of its stream.
fn find_ready(events: &Events, service: &mut SlotService<StreamWire<SlotStream>>)
    ensures session { service.new.session ≡ service.old.session }
    ensures stage { stage service.new.connection ≡ stage service.old.connection }
    ensures traffic { by_wire (λ wire. wire.traffic) service.new.connection ≡
        by_wire (λ wire. wire.traffic) service.old.connection }
    ensures counts { by_wire wire_counts service.new.connection ≡
        by_wire wire_counts service.old.connection }
{
    for event in events {
        let reads_on = event.is_read_closed() || event.is_error() || event.is_priority();
        if event.token() == STREAM && (event.is_readable() || reads_on) {
            service.find_ready(reads_on);
        }
    }
}

/// One slot's port: one connection after another, each answered by the slot's session. It can be the source of a run alone whose
/// receipts are of the type `T`.
#[derive(Drop)]
pub struct SlotPort<'r, R, T> {
    pub slot: Slot,
    listener: SlotListener,
    poll: Poll,
    events: Events,
    bell: SlotBell,
    count: Arc<ConnectionCount>,
    // None if a device call may take any time.
    watch: Option<CallWatch<'r, R>>,
    pub service: SlotService<StreamWire<SlotStream>>,
    // The bytes of the connections that have ended, while none is open.
    traffic: Traffic,
    told: PhantomData<T>,
}

impl<'r, R: Clock, T: Told + Drop> SlotPort<'r, R, T> {
    ghost use Rattle.std.specs.Prelude.{◌≡◌, ◌⊎◌, false, IfOk};
    ghost use Rattle.alm_types.specs.Counts.{one_more};
    ghost use Rattle.alm_rings.specs.Ends.{SameConsole};
    ghost use Rattle.alm_session.specs.Turns.{between};
    ghost use Rattle.alm_serve.specs.declared.connection.Connection.TheVariants as connection;
    ghost use Rattle.alm_serve.specs.Ports.{IsUnused, PortAttends, PortServes, traffic_of};
    ghost use Rattle.alm_serve.specs.Service.{IsFresh, IsLate, by_wire, stage, without_wire};
    ghost use Rattle.alm_serve.specs.StreamWires.{wire_counts};
    ghost use Rattle.alm_threads.specs.declared.go.Go.TheVariants as go;

    /// A port with nobody connected, whose listener is polled from now on.
    pub fn new(
        bound: Bound,
        events: Events,
        count: Arc<ConnectionCount>,
        watch: Option<CallWatch<'r, R>>,
        session: Session,
    ) -> io::Result<Self>
        ensures slot { IfOk result (λ port. port.slot ≡ bound.slot) }
        ensures unused { IfOk result IsUnused }
    {
        let Bound {
            mut listener,
            poll,
            bell,
            slot,
        } = bound;
        listener.register(poll.registry(), LISTENER)?;
        Ok(SlotPort {
            slot,
            listener,
            poll,
            events,
            bell,
            count,
            watch,
            service: SlotService::new(session),
            traffic: Traffic::new(),
            told: PhantomData,
        })
    }

    /// Accepts a connection, if one waits: whether one came.
    fn accept(&mut self) -> bool
        requires { self.old.service.connection ≡ connection.Awaited }
        ensures slot { self.new.slot ≡ self.old.slot }
        ensures fresh { stage self.new.service.connection ≡ connection.Open tt →
            IsFresh self.new.service.session.intake self.new.service.session.waiting.items
            self.new.service.session.output.left }
        ensures traffic { traffic_of self.new ≡ traffic_of self.old }
        ensures nobody { self.new.service.connection ≡ connection.Awaited →
            self.new.listener.nobody ≡ one_more self.old.listener.nobody }
    {
        match self
            .listener
            .accept(self.poll.registry(), STREAM, &mut self.traffic)
        {
            Ok(Some(wire)) => {
                self.service.begin(wire);
                true
            }
            Ok(None) => {
                self.service.close();
                true
            }
            Err(_) => false,
        }
    }

    /// Ends the connection, or else closes the next one that waits: whether there was one.
    fn turn_away(&mut self) -> bool
        ensures slot { self.new.slot ≡ self.old.slot }
        ensures session { self.new.service.session ≡ self.old.service.session }
        ensures stage { stage self.new.service.connection ≡
            without_wire (stage self.old.service.connection) }
        ensures traffic { traffic_of self.new ≡ traffic_of self.old }
        ensures watch { self.new.watch ≡ self.old.watch }
    {
        if !self.service.is_awaited() {
            if let Some(wire) = self.service.close() {
                self.traffic = wire.close();
                return true;
            }
        }
        self.listener.turn_away()
    }

    /// Does what can be done without waiting, or turns clients away while a device call is stuck: whether there was something.
    fn step<L: FreeLook<Told = T> + Recall>(
        &mut self,
        console: &mut Console<T>,
        look: &mut L,
    ) -> bool
        ensures ends { SameConsole console.old console.new }
        ensures slot { self.new.slot ≡ self.old.slot }
        ensures base { L.Look.base look.new ≡ L.Look.base look.old }
        ensures attends { PortAttends (between L.Look.looked L.Recall.recalled look.old look.new)
            (L.Look.base look.old) self.old self.new (L.Look.knows look.old)
            (L.Look.knows look.new) console.old console.new }
        ensures serves { IsLate self.old.watch self.new.watch ⊎
            PortServes (between L.Look.looked L.Recall.recalled look.old look.new)
            (L.Look.base look.old) self.old self.new (L.Look.knows look.old)
            (L.Look.knows look.new) console.old console.new }
    {
        if is_stuck(&mut self.watch) {
            return self.turn_away();
        }
        if self.service.is_awaited() {
            return self.accept();
        }
        match self.service.step(console, look) {
            Served::Went => true,
            Served::Idle => false,
            Served::Closed(wire) => {
                self.traffic = wire.close();
                true
            }
            Served::Over => {
                self.count.end_one();
                true
            }
        }
    }

    /// Has the bell wake the thread, then waits for the sockets and the bell.
    fn rest(&mut self)
        ensures slot { self.new.slot ≡ self.old.slot }
        ensures session { self.new.service.session ≡ self.old.service.session }
        ensures stage { stage self.new.service.connection ≡ stage self.old.service.connection }
        ensures traffic { traffic_of self.new ≡ traffic_of self.old }
        ensures counts { by_wire wire_counts self.new.service.connection ≡
            by_wire wire_counts self.old.service.connection }
        ensures nobody { self.new.listener.nobody ≡ self.old.listener.nobody }
        ensures watch { self.new.watch ≡ self.old.watch }
    {
        if !self.bell.listens() {
            self.bell.listen();
            return;
        }
        let _ = self
            .poll
            .poll(&mut self.events, Some(Duration::from_millis(SLEEP)));
        self.bell.attend();
        find_ready(&self.events, &mut self.service);
    }

    /// A turn at its slot's console: ends once all connections are over.
    fn attend<L: FreeLook<Told = T> + Recall>(
        &mut self,
        console: &mut Console<T>,
        look: &mut L,
    ) -> Go
        ensures ends { SameConsole console.old console.new }
        ensures slot { self.new.slot ≡ self.old.slot }
        ensures base { L.Look.base look.new ≡ L.Look.base look.old }
        ensures attends { PortAttends (between L.Look.looked L.Recall.recalled look.old look.new)
            (L.Look.base look.old) self.old self.new (L.Look.knows look.old)
            (L.Look.knows look.new) console.old console.new }
        ensures serves { (result ≡ go.End) ⊎ IsLate self.old.watch self.new.watch ⊎
            PortServes (between L.Look.looked L.Recall.recalled look.old look.new)
            (L.Look.base look.old) self.old self.new (L.Look.knows look.old)
            (L.Look.knows look.new) console.old console.new }
    {
        if self.count.are_over() {
            return Go::End;
        }
        if self.step(console, look) {
            self.bell.attend();
            return Go::Go;
        }
        self.rest();
        Go::Rest
    }
}

impl<R: Clock, T: Told + Drop, L: FreeLook<Told = T> + Recall> Source<T, L> for SlotPort<'_, R, T> {
    ghost use Rattle.std.specs.Prelude.{◌≡◌, ◌⊎◌, Some};
    ghost use Rattle.alm_rings.specs.Ends.{SameConsole};
    ghost use Rattle.alm_session.specs.Turns.{between};
    ghost use Rattle.alm_threads.specs.Sources.{source_state};
    ghost use Rattle.alm_threads.specs.declared.go.Go.TheVariants as go;
    ghost use Rattle.alm_serve.specs.Ports.{PortServes, SourceAttends};
    ghost use Rattle.alm_serve.specs.Service.{IsLate};

    ghost slot = { λ port. Some port.slot };

    ghost did = { SourceAttends L.Look.base L.Look.knows (between L.Look.looked L.Recall.recalled) };

    fn turn(&mut self, console: &mut Console<T>, look: &mut L) -> Go
        ensures ends { SameConsole console.old console.new }
        ensures slot { self.new.slot ≡ self.old.slot }
        ensures did { SourceAttends L.Look.base L.Look.knows (between L.Look.looked L.Recall.recalled)
            (source_state self.old look.old console.old)
            (source_state self.new look.new console.new) }
        // Unless it ends, or a device call takes too long, it has served whoever is there.
        ensures serves { (result ≡ go.End) ⊎ IsLate self.old.watch self.new.watch ⊎
            PortServes (between L.Look.looked L.Recall.recalled look.old look.new)
            (L.Look.base look.old) self.old self.new (L.Look.knows look.old)
            (L.Look.knows look.new) console.old console.new }
    {
        self.attend(console, look)
    }
}
