//! A wire that gives and takes a few bytes in a call.

ghost use Rattle.std.specs.Prelude.{◌≤◌, vec_len};

use alm_session::{ReadGave, Wire, WriteTook};

/// A wire that gives and takes at most a number of bytes in a call, and is blocked before each call that it serves.
#[derive(Drop)]
pub struct PieceWire {
    input: Vec<u8>,
    at: usize,
    piece: usize,
    output: Vec<u8>,
    room: usize,
    reads: bool,
    writes: bool,
    blocked_reads: u64,
    blocked_writes: u64,
    failed: u64,
    ghost within: { at ≤ vec_len input },
}

impl PieceWire {
    /// A wire that gives this input in pieces of at most `piece` bytes, and takes pieces of at most `room`; 0 is none at all.
    pub fn new(input: Vec<u8>, piece: usize, output: Vec<u8>, room: usize) -> Self {
        PieceWire {
            input,
            at: 0,
            piece,
            output,
            room,
            reads: false,
            writes: false,
            blocked_reads: 0,
            blocked_writes: 0,
            failed: 0,
        }
    }

    /// What was written.
    pub fn output(&self) -> &[u8] {
        &self.output
    }

    /// How many bytes were read.
    pub fn given(&self) -> usize {
        self.at
    }
}

impl Wire for PieceWire {
    ghost use Rattle.std.specs.Prelude.{None, take};

    ghost counts = { λ w. record {
      blocked_reads = w.blocked_reads;
      blocked_writes = w.blocked_writes;
      failed = w.failed;
    } };

    ghost input = { λ w. record { came = take w.at w.input.items; coming = None } };

    ghost written = { λ w. w.output.items };

    fn read(&mut self, into: &mut [u8]) -> ReadGave {
        self.reads = !self.reads;
        if self.reads {
            self.blocked_reads = self.blocked_reads.saturating_add(1);
            return ReadGave::Blocked;
        }
        let rest = &self.input[self.at..];
        let count = rest.len().min(into.len()).min(self.piece);
        if count == 0 {
            return ReadGave::End;
        }
        into[..count].copy_from_slice(&rest[..count]);
        self.at += count;
        ReadGave::Got(count)
    }

    fn write(&mut self, bytes: &[u8]) -> WriteTook {
        self.writes = !self.writes;
        let count = bytes.len().min(self.room);
        if self.writes || count == 0 {
            self.blocked_writes = self.blocked_writes.saturating_add(1);
            return WriteTook::Blocked;
        }
        match self.output.extend_from_slice(&bytes[..count]) {
            Ok(()) => WriteTook::Wrote(count),
            Err(_) => {
                self.failed = self.failed.saturating_add(1);
                WriteTook::Failed
            }
        }
    }
}
