//! A file with the record of its calls.
//!
//! In [`RecordedFile::read`], [`RecordedFile::write`] and [`RecordedFile::sync`] a call and its note stand side by side. That each
//! makes the call which it notes is checked by reading, and by `tests/lib/calls.py`: no contract of a file says it.

ghost use Rattle.std.specs.Prelude.{◌≡◌, ◌∷◌, [], pos, ◌<ℤ◌, length, true, false, OnOk, OnErr};
ghost use Rattle.std.specs.Fd.{file_raw_fd};
ghost use Rattle.alm_file.specs.Noted.{was_read, was_not_read, was_written, was_synced};

use crate::disk_cache::{forget, has_no_sync};
use crate::file_lock::FileLock;
use crate::place::replaced;
use crate::record::Record;
use std::fs::{File, Metadata};
use std::io;
use std::os::unix::fs::{FileExt, MetadataExt};

/// The kinds of calls, as the record has them.
const READ: u64 = 0;

const WRITE: u64 = 1;

const SYNC: u64 = 2;

/// A file with the record of its calls. Its descriptor isn't one of the standard streams'.
#[derive(Drop)]
pub struct RecordedFile {
    file: File,
    pub(crate) calls: Record,
    ghost apart: { pos 2 <ℤ file_raw_fd file },
}

impl RecordedFile {
    /// A file that was opened, before the first call of its record.
    pub fn new(file: File) -> RecordedFile
        requires { pos 2 <ℤ file_raw_fd file }
        ensures { result.calls.events ≡ [] }
    {
        RecordedFile {
            file,
            calls: Record::new(),
        }
    }

    /// Fills `into` from a place on.
    pub fn read(&mut self, at: u64, into: &mut [u8]) -> io::Result<()>
        ensures done { OnOk result
            (self.new.calls.events ≡ was_read at (length into.old) into.new ∷ self.old.calls.events) }
        ensures failed { OnErr result
            (self.new.calls.events ≡ was_not_read at (length into.old) ∷ self.old.calls.events) }
        ensures long { length into.new ≡ length into.old }
    {
        let length = into.len() as u64;
        let answer = self.file.read_exact_at(into, at);
        match &answer {
            Ok(()) => self.calls.note(&[READ, at, length, 1], into),
            Err(_) => self.calls.note(&[READ, at, length, 0], &[]),
        }
        answer
    }

    /// Writes these bytes from a place on.
    pub fn write(&mut self, at: u64, bytes: &[u8]) -> io::Result<()>
        ensures done { OnOk result
            (self.new.calls.events ≡ was_written at true bytes.now ∷ self.old.calls.events) }
        ensures failed { OnErr result
            (self.new.calls.events ≡ was_written at false bytes.now ∷ self.old.calls.events) }
    {
        let length = bytes.len() as u64;
        let answer = self.file.write_all_at(bytes, at);
        match &answer {
            Ok(()) => self.calls.note(&[WRITE, at, length, 1], bytes),
            Err(_) => self.calls.note(&[WRITE, at, length, 0], bytes),
        }
        answer
    }

    /// Waits until the file's bytes are on the disk. One that is read alone and can't be synced at all passes.
    pub fn sync(&mut self, is_read_only: bool) -> io::Result<()>
        ensures done { OnOk result (self.new.calls.events ≡ was_synced true ∷ self.old.calls.events) }
        ensures failed { OnErr result
            (self.new.calls.events ≡ was_synced false ∷ self.old.calls.events) }
    {
        let answer = match self.file.sync_data() {
            Err(error) if is_read_only && has_no_sync(&error) => Ok(()),
            answer => answer,
        };
        match &answer {
            Ok(()) => self.calls.note(&[SYNC, 0, 0, 1], &[]),
            Err(_) => self.calls.note(&[SYNC, 0, 0, 0], &[]),
        }
        answer
    }

    /// Notes a sync that failed, of a file that isn't the device any more.
    pub fn note_failed_sync(&mut self)
        ensures { self.new.calls.events ≡ was_synced false ∷ self.old.calls.events }
    {
        self.calls.note(&[SYNC, 0, 0, 0], &[]);
    }

    /// Fails if no path names the file any more, or its size isn't this one.
    pub fn look(&self, size: u64) -> io::Result<()> {
        let found = self.file.metadata()?;
        if found.nlink() > 0 && found.len() == size {
            Ok(())
        } else {
            Err(replaced())
        }
    }

    /// Makes the kernel drop its cache of the file.
    pub fn forget(&self) {
        forget(&self.file);
    }

    /// The lock on the file, to be released before the device ends.
    pub fn lock(&self) -> io::Result<FileLock> {
        let file = self.file.try_clone()?;
        Ok(FileLock { file })
    }

    /// What identifies the file, its file system and its number there; its owner, and who may read and write it.
    pub fn metadata(&self) -> io::Result<Metadata> {
        self.file.metadata()
    }
}
