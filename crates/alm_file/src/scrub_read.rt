//! A reading of a device's file while the device is used.

ghost use Rattle.std.specs.Prelude.{◌≡◌, ◌≤◌, ◌+◌, length, is_ok};
ghost use Rattle.alm_disk.specs.Failures.{CountsFault, last_count};

use crate::pause_between::PauseBetween;
use alm_disk::{Disk, DiskFault};
use std::fs::File;
use std::os::unix::fs::FileExt;

/// How many bytes are read in one call.
const PIECE: usize = 65_536;

/// The length of a half's head: no longer part of a device is read before its image.
const HEAD: usize = 25;

/// A factor of the sum over the heads: an odd one loses no bit.
const FACTOR: u64 = 0x0100_0000_01B3;

/// A reading of a device's file. It promises nothing of what it gives, since a call of the device may be under way meanwhile.
#[derive(Drop)]
pub struct ScrubRead<'p, P: PauseBetween> {
    file: &'p File,
    pause: &'p P,
    size: u64,
    heads: u64,
    failures: u64,
    ghost counted: { failures ≤ last_count },
}

// A sum over these bytes and those before them.
fn sum_of(before: u64, bytes: &[u8]) -> u64 {
    let mut sum = before;
    for byte in bytes {
        sum = (sum ^ u64::from(*byte)).wrapping_mul(FACTOR);
    }
    sum
}

impl<'p, P: PauseBetween> ScrubRead<'p, P> {
    /// A reading of a file of this length.
    pub(crate) fn new(file: &'p File, pause: &'p P, size: u64) -> Self {
        ScrubRead {
            file,
            pause,
            size,
            heads: 0,
            failures: 0,
        }
    }

    /// A sum over what was read of header and heads so far. If two openings have the same one, no checkpoint has ended between the
    /// first reads of both.
    pub fn heads(&self) -> u64 {
        self.heads
    }

    // Fills `into` from a place on, in pieces with a pause between.
    fn read_pieces(&self, at: u64, into: &mut [u8]) -> Result<(), DiskFault>
        requires { at + length into.old ≤ self.now.size }
        ensures { length into.new ≡ length into.old }
    {
        // for the proof: a size is a number of 64 bits, so each place below it is one
        let _size = self.size;
        for from in (0..into.len()).step_by(PIECE) {
            if from > 0 && !self.pause.pause() {
                return Err(DiskFault);
            }
            let to = from + (into.len() - from).min(PIECE);
            match self
                .file
                .read_exact_at(&mut into[from..to], at + from as u64)
            {
                Ok(()) => {}
                Err(_) => return Err(DiskFault),
            }
        }
        Ok(())
    }

    // Counts a failure.
    fn count(&mut self, answer: Result<(), DiskFault>) -> Result<(), DiskFault>
        ensures size { self.new.size ≡ self.old.size }
        ensures answer { is_ok result ≡ is_ok answer }
        ensures count { CountsFault result self.old.failures self.new.failures }
    {
        if answer.is_err() {
            self.failures = self.failures.saturating_add(1);
        }
        answer
    }
}

impl<P: PauseBetween> Disk for ScrubRead<'_, P> {
    ghost use Rattle.std.specs.Prelude.{[], false};

    // It keeps to no model.
    ghost honest = { λ _. ⊥ };

    ghost state = { λ _. record { bytes = []; pending = λ _. false; faulted = false } };

    ghost size = { λ d. d.size };

    ghost failures = { λ d. d.failures };

    ghost serves = { λ old call result new. Unit {0} };

    ghost whole = { λ d honest. absurd honest };

    ghost own_image = { λ d honest. absurd honest };

    fn size(&self) -> u64 {
        self.size
    }

    fn read_at(&mut self, at: u64, into: &mut [u8]) -> Result<(), DiskFault> {
        let answer = self.read_pieces(at, into);
        if into.len() <= HEAD {
            self.heads = sum_of(self.heads, into);
        }
        self.count(answer)
    }

    /// It writes nothing.
    fn write_at(&mut self, _at: u64, _bytes: &[u8]) -> Result<(), DiskFault> {
        self.count(Err(DiskFault))
    }

    /// There is nothing to sync: it was written elsewhere.
    fn sync(&mut self) -> Result<(), DiskFault> {
        Ok(())
    }
}
