//! A run of ten calls.

ghost use Rattle.std.specs.Prelude.{◌≤◌, ◌+◌, length, IsTrue};

use alm_disk::{Disk, DiskFault, MemDisk};
use std::alloc::{AllocError, Global};

/// A call with what it writes.
#[derive(Clone, Copy)]
pub enum Step {
    Read(u64, usize),
    Write(u64, &'static [u8]),
    Sync,
}

/// A call, and after it: what reads, what was there at the last sync, and which places are pending.
#[derive(Clone, Copy)]
pub struct Row {
    pub step: Step,
    pub reads: &'static [u8],
    pub stood: &'static [u8],
    pub pending: &'static [u8],
}

/// How many calls the run has.
pub const CALLS: u64 = 10;

/// What the device reads at first.
pub const START: &[u8] = b"abcdefgh";

/// The call of this number, from 1 on.
pub fn row_of(number: u64) -> Row {
    let (step, reads, stood, pending): (Step, &'static [u8], &'static [u8], &'static [u8]) =
        match number {
            1 => (Step::Write(0, b"AB"), b"ABcdefgh", b"abcdefgh", b"##......"),
            2 => (Step::Sync, b"ABcdefgh", b"ABcdefgh", b"........"),
            3 => (
                Step::Write(1, b"123"),
                b"A123efgh",
                b"ABcdefgh",
                b".###....",
            ),
            4 => (Step::Read(0, 4), b"A123efgh", b"ABcdefgh", b".###...."),
            5 => (Step::Write(3, b"xy"), b"A12xyfgh", b"ABcdefgh", b".####..."),
            6 => (Step::Sync, b"A12xyfgh", b"A12xyfgh", b"........"),
            7 => (Step::Write(7, b"Z"), b"A12xyfgZ", b"A12xyfgh", b".......#"),
            8 => (Step::Read(6, 2), b"A12xyfgZ", b"A12xyfgh", b".......#"),
            9 => (Step::Sync, b"A12xyfgZ", b"A12xyfgZ", b"........"),
            _ => (Step::Write(0, b"!"), b"!12xyfgZ", b"A12xyfgZ", b"#......."),
        };
    Row {
        step,
        reads,
        stood,
        pending,
    }
}

/// A new device in memory that reads as at first, with room for `calls` calls.
pub fn device(alloc: Global, calls: usize) -> Result<MemDisk, AllocError> {
    MemDisk::new(alloc, Vec::from_slice(alloc, START)?, calls)
}

// Whether this range is inside the device.
fn fits<D: Disk>(disk: &D, at: u64, length: usize) -> bool
    ensures { IsTrue result → at + length ≤ D.size disk.now }
{
    match at.checked_add(length as u64) {
        Some(end) => end <= disk.size(),
        None => false,
    }
}

/// Makes one call, which reads into `into`. A range outside the device is a fault too.
pub fn make<D: Disk>(disk: &mut D, step: Step, into: &mut [u8; 8]) -> Result<(), DiskFault> {
    match step {
        Step::Read(at, length) => {
            if length > 8 || !fits(disk, at, length) {
                return Err(DiskFault);
            }
            disk.read_at(at, &mut into[..length])
        }
        Step::Write(at, bytes) => {
            if !fits(disk, at, bytes.len()) {
                return Err(DiskFault);
            }
            disk.write_at(at, bytes)
        }
        Step::Sync => disk.sync(),
    }
}

/// Makes the first calls of the run, and says how many failed.
pub fn make_first<D: Disk>(disk: &mut D, calls: u64) -> u64 {
    let mut into = [0; 8];
    let mut failed: u64 = 0;
    for number in 1..=calls {
        if make(disk, row_of(number).step, &mut into).is_err() {
            failed = failed.saturating_add(1);
        }
    }
    failed
}
