//! A wire in memory.

ghost use Rattle.std.specs.Prelude.{◌≡◌, ◌≤◌, vec_capacity, vec_len};

use crate::wire::{ReadGave, Wire, WriteTook};
use std::alloc::{AllocError, Global};

/// A wire in memory: it gives its input and then End, and takes bytes until its room is full; then it is blocked.
#[derive(Drop)]
pub struct MemWire {
    input: Vec<u8>,
    at: usize,
    output: Vec<u8>,
    room: usize,
    blocked: u64,
    ghost within: { at ≤ vec_len input },
    ghost bounded: { vec_len output ≤ room },
    ghost room_taken: { room ≤ vec_capacity output },
}

impl MemWire {
    ghost use Rattle.std.specs.Prelude.{◌≡◌, ◌≤◌, IfOk, Some, []};
    ghost use Rattle.alm_session.specs.MemWires.{input_of, output_of, wire_room};

    /// A wire that gives this input, and has room for `room` bytes of output.
    pub fn new(alloc: Global, input: Vec<u8>, room: usize) -> Result<Self, AllocError>
        ensures input { IfOk result (λ w. input_of w ≡ input.items) }
        ensures output { IfOk result (λ w. output_of w ≡ []) }
        ensures room { IfOk result (λ w. wire_room w ≡ room) }
    {
        Ok(MemWire {
            input,
            at: 0,
            output: Vec::with_capacity(alloc, room)?,
            room,
            blocked: 0,
        })
    }

    /// What was written.
    pub fn output(&self) -> &[u8]
        ensures { result.now ≡ output_of self.now }
    {
        &self.output
    }
}

impl Wire for MemWire {
    ghost use Rattle.std.specs.Prelude.{◌≡◌, Some};
    ghost use Rattle.alm_session.specs.MemWires.{came_over, input_of, output_of};

    ghost counts = { λ w. record { blocked_reads = 0; blocked_writes = w.blocked; failed = 0 } };

    ghost input = { λ w. record { came = came_over w; coming = Some (input_of w) } };

    ghost written = { λ w. output_of w };

    fn read(&mut self, into: &mut [u8]) -> ReadGave {
        let rest = &self.input[self.at..];
        if rest.is_empty() {
            return ReadGave::End;
        }
        let count = rest.len().min(into.len());
        into[..count].copy_from_slice(&rest[..count]);
        self.at += count;
        ReadGave::Got(count)
    }

    fn write(&mut self, bytes: &[u8]) -> WriteTook {
        let free = self.room - self.output.len();
        if free == 0 {
            self.blocked = self.blocked.saturating_add(1);
            return WriteTook::Blocked;
        }
        let count = bytes.len().min(free);
        match self.output.extend_from_slice(&bytes[..count]) {
            Ok(()) => WriteTook::Wrote(count),
            Err(_) => unreachable!(),
        }
    }
}
