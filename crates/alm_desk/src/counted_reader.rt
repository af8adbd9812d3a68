//! A reader that counts its reads and its failures.

ghost use Rattle.std.specs.Prelude.{◌≡◌, ◌<◌, length};
ghost use Rattle.alm_types.specs.Counts.{one_more};
ghost use Rattle.alm_desk.specs.Reads.{CountsFailure, GivesBytes};

use crate::read_outcome::ReadOutcome;
use std::io::{ErrorKind, Read};

/// A reader, how often it was read, and how often it failed.
#[derive(Drop)]
pub struct CountedReader<R: Drop> {
    inner: R,
    reads: u64,
    failed: u64,
}

impl<R: Read + Drop> CountedReader<R> {
    pub fn new(inner: R) -> Self
        ensures inner { result.inner ≡ inner }
        ensures reads { result.reads ≡ 0 }
        ensures failed { result.failed ≡ 0 }
    {
        CountedReader {
            inner,
            reads: 0,
            failed: 0,
        }
    }

    /// Reads some bytes.
    pub fn take(&mut self, into: &mut [u8]) -> ReadOutcome
        requires { 0 < length into.old }
        ensures bytes { GivesBytes result (R.remaining self.old.inner) (R.remaining self.new.inner)
            into.new }
        ensures reads { self.new.reads ≡ one_more self.old.reads }
        ensures failed { CountsFailure result self.old.failed self.new.failed }
    {
        self.reads = self.reads.saturating_add(1);
        match self.inner.read(into) {
            Ok(0) => ReadOutcome::End,
            Ok(count) => ReadOutcome::Bytes(count),
            Err(error) if error.kind() == ErrorKind::Interrupted => ReadOutcome::Interrupted,
            Err(_) => {
                self.failed = self.failed.saturating_add(1);
                ReadOutcome::Failed
            }
        }
    }
}
