//! A writer that is slow, and fails.

use std::alloc::Global;
use std::io::{self, Error, ErrorKind, Write};

/// A writer that takes a byte at every other call, is interrupted at the others, and fails when it is full.
#[derive(Drop)]
pub struct SlowWriter {
    taken: Vec<u8>,
    room: usize,
    calls: u64,
    flushed: usize,
}

impl SlowWriter {
    /// A writer that takes `room` bytes.
    pub fn new(alloc: Global, room: usize) -> Self {
        SlowWriter {
            taken: Vec::new(alloc),
            room,
            calls: 0,
            flushed: 0,
        }
    }

    /// The bytes that it took.
    pub fn taken(&self) -> &[u8] {
        &self.taken
    }

    /// How many of them were passed on.
    pub fn flushed(&self) -> usize {
        self.flushed
    }
}

impl Write for SlowWriter {
    fn write(&mut self, bytes: &[u8]) -> io::Result<usize> {
        self.calls = self.calls.wrapping_add(1);
        if self.calls % 2 == 1 {
            return Err(Error::from(ErrorKind::Interrupted));
        }
        if self.taken.len() >= self.room {
            return Err(Error::from(ErrorKind::BrokenPipe));
        }
        let Some(byte) = bytes.first() else {
            return Ok(0);
        };
        match self.taken.push(*byte) {
            Ok(()) => Ok(1),
            Err(_) => Err(Error::from(ErrorKind::OutOfMemory)),
        }
    }

    fn flush(&mut self) -> io::Result<()> {
        self.flushed = self.taken.len();
        Ok(())
    }
}
