//! A non-blocking stream as a wire.

ghost use Rattle.std.specs.Prelude.{◌≡◌, ◌↔◌, ◌⊎◌, ◌-◌, ◌++◌, IsTrue};
ghost use Rattle.std_io.specs.declared.io.kind.ErrorKind.TheVariants.{WouldBlock, Interrupted};

use crate::plain_bytes::PlainBytes;
use crate::traffic::Traffic;
use crate::transcript::Transcript;
use alm_session::{ReadGave, Wire, WriteTook};
use std::io::{ErrorKind, Read, Write};

/// A non-blocking stream as a wire. A call that would wait, or was interrupted, is Blocked; a read of 0 bytes is the
/// end; every other error, and a write of 0 bytes, is Failed. A stream that begins as a request of HTTP has ended. A
/// browser sends such a request for any page that asks it to, and its body may have lines of the protocol.
///
/// A read that returns fewer bytes than there is room for has emptied the stream. The wire is dry then, and reads are Blocked
/// without a call until a poll finds the stream ready. There are three exceptions, in which reads continue. Once the other side
/// has ended its sending, no poll reports it again. A read ends before urgent data. And a read at a socket of a folder may end
/// early.
///
/// In `read` and `write` a call of the stream and its note stand side by side. That each makes the call which it notes is checked
/// by reading: no contract of a socket says what it carries.
#[derive(Drop)]
pub struct StreamWire<S> {
    stream: S,
    /// What came on this connection.
    pub here: PlainBytes,
    /// The bytes of the slot's connections, up to now.
    pub traffic: Traffic,
    /// What had come over those before this one.
    pub before: Transcript,
    is_dry: bool,
    reads_on: bool,
    blocked_reads: u64,
    blocked_writes: u64,
    failed: u64,
    /// What came over the slot's connections ends with what this one gave.
    pub ghost ends: { traffic.came.bytes ≡ before.bytes ++ here.given.bytes },
}

impl<S: Read + Write + Drop> StreamWire<S> {
    ghost use Rattle.std.specs.Prelude.{◌≡◌, []};
    ghost use Rattle.alm_serve.specs.StreamWires.{wire_counts};

    /// A wire over a stream that never waits, with the bytes of the slot's connections before it.
    pub fn new(stream: S, traffic: Traffic) -> Self
        ensures traffic { result.traffic ≡ traffic }
        ensures before { result.before.bytes ≡ traffic.came.bytes }
        ensures here { result.here.came.bytes ≡ [] }
    {
        StreamWire {
            stream,
            here: PlainBytes::new(),
            before: traffic.came.copy(),
            traffic,
            is_dry: false,
            reads_on: false,
            blocked_reads: 0,
            blocked_writes: 0,
            failed: 0,
        }
    }

    /// A poll found the stream ready to be read. From now on a short read may leave bytes in the stream if the other side has
    /// ended its sending, or sent urgent data. The stream itself isn't called.
    pub fn find_ready(&mut self, reads_on: bool)
        ensures stream { self.new.stream ≡ self.old.stream }
        ensures traffic { self.new.traffic ≡ self.old.traffic }
        ensures before { self.new.before ≡ self.old.before }
        ensures here { self.new.here ≡ self.old.here }
        ensures counts { wire_counts self.new ≡ wire_counts self.old }
    {
        self.is_dry = false;
        self.reads_on = self.reads_on || reads_on;
    }

    /// Closes the stream: the bytes of the slot's connections, with those of this one.
    pub fn close(self) -> Traffic
        ensures { result ≡ self.traffic }
    {
        self.traffic
    }
}

/// Whether a call may be made again later.
fn is_for_later(kind: ErrorKind) -> bool
    ensures { IsTrue result ↔ (kind ≡ WouldBlock) ⊎ (kind ≡ Interrupted) }
{
    kind == ErrorKind::WouldBlock || kind == ErrorKind::Interrupted
}

impl<S: Read + Write + Drop> Wire for StreamWire<S> {
    ghost use Rattle.std.specs.Prelude.{◌≡◌, length};
    ghost use Rattle.alm_session.specs.Wires.{ReadBytes, ReadCounts, WriteBytes, WriteCounts};
    ghost use Rattle.alm_serve.specs.StreamWires.{Asks, wire_counts, wire_input};

    ghost counts = { λ w. wire_counts w };

    ghost input = { λ w. wire_input w };

    ghost written = { λ w. w.traffic.written.bytes };

    fn read(&mut self, into: &mut [u8]) -> ReadGave
        ensures counts { ReadCounts result (length into.new) (wire_counts self.old)
            (wire_counts self.new) }
        ensures input { ReadBytes result into.new (wire_input self.old) (wire_input self.new) }
        ensures written { self.new.traffic.written ≡ self.old.traffic.written }
        ensures before { self.new.before ≡ self.old.before }
        ensures here { Asks result into.new self.old.here self.new.here }
    {
        if self.is_dry {
            self.blocked_reads = self.blocked_reads.saturating_add(1);
            return ReadGave::Blocked;
        }
        let room = into.len();
        match self.stream.read(into) {
            Ok(0) => ReadGave::End,
            Ok(count) => {
                self.is_dry = count < room && !self.reads_on;
                let gave = self.here.give(&into[..count]);
                if let ReadGave::Got(_) = gave {
                    self.traffic.came.note(&into[..count]);
                }
                gave
            }
            Err(error) if is_for_later(error.kind()) => {
                self.is_dry = error.kind() == ErrorKind::WouldBlock && !self.reads_on;
                self.blocked_reads = self.blocked_reads.saturating_add(1);
                ReadGave::Blocked
            }
            Err(_) => {
                self.failed = self.failed.saturating_add(1);
                ReadGave::Failed
            }
        }
    }

    fn write(&mut self, bytes: &[u8]) -> WriteTook
        ensures counts { WriteCounts result (length bytes.now) (wire_counts self.old)
            (wire_counts self.new) }
        ensures written { WriteBytes result bytes.now self.old.traffic.written.bytes
            self.new.traffic.written.bytes }
        ensures input { wire_input self.new ≡ wire_input self.old }
        ensures before { self.new.before ≡ self.old.before }
        ensures here { self.new.here ≡ self.old.here }
    {
        match self.stream.write(bytes) {
            Ok(count) if count > 0 => {
                self.traffic.written.note(&bytes[..count]);
                WriteTook::Wrote(count)
            }
            Err(error) if is_for_later(error.kind()) => {
                self.blocked_writes = self.blocked_writes.saturating_add(1);
                WriteTook::Blocked
            }
            _ => {
                self.failed = self.failed.saturating_add(1);
                WriteTook::Failed
            }
        }
    }
}
