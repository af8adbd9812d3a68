//! A file as a device.

ghost use Rattle.std.specs.Prelude.{◌≡◌, ◌≤◌, ◌∷◌, pos, ◌<ℤ◌, length, is_ok, true, false, IfOk, OnOk, OnErr};
ghost use Rattle.std.specs.Fd.{file_raw_fd};
ghost use Rattle.alm_disk.specs.Device.{AreBytes};
ghost use Rattle.alm_disk.specs.Failures.{CountsFault, last_count};
ghost use Rattle.alm_file.specs.Noted.{IsNoted, was_synced};
ghost use Rattle.alm_file.specs.Replay.{BeginsAs, IsHonestFile, replayed_state};

use crate::disk_cache::{forget, take_room};
use crate::file_fault::FileFault;
use crate::file_lock::FileLock;
use crate::limit::refuse_beyond_limit;
use crate::names::sync_with_names;
use crate::recorded_file::RecordedFile;
use crate::start::Start;
use crate::streams::{is_apart, refuse_streams};
use alm_disk::{Disk, DiskFault};
use std::fs::{self, File, Files, OpenOptions};
use std::io::{self, ErrorKind};
use std::marker::PhantomData;
use std::os::unix::fs::OpenOptionsExt;

/// The mode of a new device: only its owner reads and writes it.
pub(crate) const MODE: u32 = 0o600;

/// A regular file that held the bytes of `S` as it was opened, whether it is read-only, its size in bytes then, and how often a
/// call of it failed. By its calls since it reads as many bytes, and each is a byte.
#[derive(Drop)]
pub struct FileDisk<S: Start> {
    pub(crate) file: RecordedFile,
    is_read_only: bool,
    size: u64,
    failures: u64,
    start: PhantomData<S>,
    ghost counted: { failures ≤ last_count },
    pub ghost long: { length S.Start.bytes ≡ size →
        length (replayed_state S.Start.bytes file.calls.events).bytes ≡ size },
    pub ghost are_bytes: { AreBytes S.Start.bytes →
        AreBytes (replayed_state S.Start.bytes file.calls.events).bytes },
}

/// Refuses anything but a regular file before it is opened: opening a pipe would wait.
fn refuse_special<R: Files<File = File>>(rt: &R, path: &str) -> io::Result<()> {
    match fs::metadata(rt, path) {
        Ok(found) if !found.is_file() => Err(no_regular_file()),
        Err(error) if error.kind() != ErrorKind::NotFound => Err(error),
        _ => Ok(()),
    }
}

/// The error of a folder, a pipe, a socket or a system's device.
fn no_regular_file() -> io::Error {
    io::Error::new(ErrorKind::InvalidInput, "no regular file")
}

/// Opens a regular file that isn't one of the standard streams'.
pub(crate) fn open_apart<R: Files<File = File>>(
    rt: &R,
    options: &OpenOptions,
    path: &str,
) -> Result<File, FileFault>
    ensures { IfOk result (λ file. pos 2 <ℤ file_raw_fd file) }
{
    refuse_special(rt, path)?;
    let file = options.open(rt, path)?;
    let found = file.metadata()?;
    if !found.is_file() {
        return Err(FileFault::Io(no_regular_file()));
    }
    refuse_streams(rt, &found)?;
    if !is_apart(&file) {
        return Err(FileFault::Stream);
    }
    Ok(file)
}

impl<S: Start> FileDisk<S> {
    /// The existing file at a path, with its present length, once its bytes and its name are on the disk. It is refused if there
    /// is none, if another process has it open, or if the process may not write to its end.
    pub fn open<R: Files<File = File> + AllocGlobal>(
        rt: &R,
        path: &str,
        _start: S,
    ) -> Result<FileDisk<S>, FileFault>
        ensures begins { IfOk result
            (λ d. BeginsAs S.Start.bytes (⟦<FileDisk<S> as Disk>⟧.size d)
            (⟦<FileDisk<S> as Disk>⟧.honest d) (⟦<FileDisk<S> as Disk>⟧.state d)) }
        ensures count { IfOk result (λ d. ⟦<FileDisk<S> as Disk>⟧.failures d ≡ 0) }
    {
        let file = open_apart(rt, OpenOptions::new().read(true).write(true), path)?;
        file.try_lock().map_err(io::Error::from)?;
        let size = file.metadata()?.len();
        refuse_beyond_limit(size)?;
        forget(&file);
        sync_with_names(rt, &file, path)?;
        Ok(FileDisk {
            file: RecordedFile::new(file),
            is_read_only: false,
            size,
            failures: 0,
            start: PhantomData,
        })
    }

    /// The same file, read-only: each write to it fails. It is refused if there is none, or another process has it open to write.
    /// Several processes may read it simultaneously.
    pub fn open_to_read<R: Files<File = File>>(
        rt: &R,
        path: &str,
        _start: S,
    ) -> Result<FileDisk<S>, FileFault>
        ensures begins { IfOk result
            (λ d. BeginsAs S.Start.bytes (⟦<FileDisk<S> as Disk>⟧.size d)
            (⟦<FileDisk<S> as Disk>⟧.honest d) (⟦<FileDisk<S> as Disk>⟧.state d)) }
        ensures count { IfOk result (λ d. ⟦<FileDisk<S> as Disk>⟧.failures d ≡ 0) }
    {
        let file = open_apart(rt, OpenOptions::new().read(true), path)?;
        file.try_lock_shared().map_err(io::Error::from)?;
        let size = file.metadata()?.len();
        forget(&file);
        Ok(FileDisk {
            file: RecordedFile::new(file),
            is_read_only: true,
            size,
            failures: 0,
            start: PhantomData,
        })
    }

    /// The file at a path, created if there is none, with access only for its owner, and cut or lengthened with zeros to a size.
    /// The bytes that are used get their room on the disk. If there is no such room it is refused, and has its new size.
    pub fn make<R: Files<File = File> + AllocGlobal>(
        rt: &R,
        path: &str,
        size: u64,
        used: u64,
        _start: S,
    ) -> Result<FileDisk<S>, FileFault>
        ensures begins { IfOk result
            (λ d. BeginsAs S.Start.bytes (⟦<FileDisk<S> as Disk>⟧.size d)
            (⟦<FileDisk<S> as Disk>⟧.honest d) (⟦<FileDisk<S> as Disk>⟧.state d)) }
        ensures size { IfOk result (λ d. ⟦<FileDisk<S> as Disk>⟧.size d ≡ size) }
        ensures count { IfOk result (λ d. ⟦<FileDisk<S> as Disk>⟧.failures d ≡ 0) }
    {
        let file = open_apart(
            rt,
            OpenOptions::new()
                .read(true)
                .write(true)
                .create(true)
                .mode(MODE),
            path,
        )?;
        FileDisk::of_size(rt, file, path, size, used)
    }

    /// A file that was just opened at a path, cut or lengthened with zeros to a size, with room on the disk for the bytes that are
    /// used. It and its name are on the disk then.
    pub(crate) fn of_size<R: Files<File = File> + AllocGlobal>(
        rt: &R,
        file: File,
        path: &str,
        size: u64,
        used: u64,
    ) -> Result<FileDisk<S>, FileFault>
        requires { pos 2 <ℤ file_raw_fd file }
        ensures begins { IfOk result
            (λ d. BeginsAs S.Start.bytes (⟦<FileDisk<S> as Disk>⟧.size d)
            (⟦<FileDisk<S> as Disk>⟧.honest d) (⟦<FileDisk<S> as Disk>⟧.state d)) }
        ensures size { IfOk result (λ d. ⟦<FileDisk<S> as Disk>⟧.size d ≡ size) }
        ensures count { IfOk result (λ d. ⟦<FileDisk<S> as Disk>⟧.failures d ≡ 0) }
    {
        file.try_lock().map_err(io::Error::from)?;
        refuse_beyond_limit(size)?;
        file.set_len(size)?;
        take_room(&file, used.min(size))?;
        sync_with_names(rt, &file, path)?;
        Ok(FileDisk {
            file: RecordedFile::new(file),
            is_read_only: false,
            size,
            failures: 0,
            start: PhantomData,
        })
    }

    /// The lock on the file, to be released before the device ends.
    pub fn lock(&self) -> io::Result<FileLock> {
        self.file.lock()
    }

    /// Counts a failure.
    fn count(&mut self, answer: io::Result<()>) -> Result<(), DiskFault>
        ensures file { self.new.file ≡ self.old.file }
        ensures size { self.new.size ≡ self.old.size }
        ensures answer { is_ok result ≡ is_ok answer }
        ensures count { CountsFault result self.old.failures self.new.failures }
    {
        match answer {
            Ok(()) => Ok(()),
            Err(_) => {
                self.failures = self.failures.saturating_add(1);
                Err(DiskFault)
            }
        }
    }

    /// What a sync that was done is worth: it fails if the file is found to be another one.
    pub(crate) fn pass_sync(&mut self, found: io::Result<()>) -> Result<(), DiskFault>
        ensures done { OnOk result (self.new.file.calls.events ≡ self.old.file.calls.events) }
        ensures failed { OnErr result
            (self.new.file.calls.events ≡ was_synced false ∷ self.old.file.calls.events) }
        ensures size { self.new.size ≡ self.old.size }
        ensures count { CountsFault result self.old.failures self.new.failures }
    {
        if found.is_err() {
            self.file.note_failed_sync();
        }
        self.count(found)
    }
}

impl<S: Start> Disk for FileDisk<S> {
    ghost use Rattle.std.specs.Prelude.{refl};

    // A premise on the answers that its calls had so far. It supposes nothing of the file.
    ghost honest = { λ d. IsHonestFile S.Start.bytes d.size d.file.calls.events };

    ghost state = { λ d. replayed_state S.Start.bytes d.file.calls.events };

    ghost size = { λ d. d.size };

    ghost failures = { λ d. d.failures };

    ghost serves = { λ old call result new.
        IsNoted call result old.file.calls.events new.file.calls.events };

    ghost whole = { λ d honest. d.long honest.whole };

    ghost own_image = { λ d honest.
        record { size = refl; bytes = d.are_bytes honest.are_bytes; stable = λ _ _. refl } };

    fn size(&self) -> u64 {
        self.size
    }

    fn read_at(&mut self, at: u64, into: &mut [u8]) -> Result<(), DiskFault> {
        let answer = self.file.read(at, into);
        self.count(answer)
    }

    fn write_at(&mut self, at: u64, bytes: &[u8]) -> Result<(), DiskFault> {
        let answer = self.file.write(at, bytes);
        self.count(answer)
    }

    /// If it fails, later reads return only what the disk has.
    fn sync(&mut self) -> Result<(), DiskFault> {
        match self.file.sync(self.is_read_only) {
            Ok(()) => {
                let found = self.file.look(self.size);
                self.pass_sync(found)
            }
            Err(error) => {
                self.file.forget();
                self.count(Err(error))
            }
        }
    }
}
