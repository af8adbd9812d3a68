//! A file as a device that must stay at its path.

ghost use Rattle.std.specs.Prelude.{◌≡◌, IfOk};
ghost use Rattle.alm_file.specs.Replay.{BeginsAs};

use crate::file_disk::FileDisk;
use crate::file_fault::FileFault;
use crate::place::Place;
use crate::start::Start;
use alm_disk::{Disk, DiskFault};
use std::fs::{File, Files};

/// A file as a device, and the path that it was opened by. A sync fails if the path names another file, or none: so no reply is
/// sent for a file that the next process to open the path wouldn't find.
#[derive(Drop)]
pub struct PlacedDisk<'r, R: Files<File = File>, S: Start> {
    disk: FileDisk<S>,
    place: Place<'r, R>,
}

impl<'r, R: Files<File = File> + AllocGlobal, S: Start> PlacedDisk<'r, R, S> {
    /// The file at a path, as [`FileDisk::open`] has it.
    pub fn open(rt: &'r R, path: &'r str, start: S) -> Result<Self, FileFault>
        ensures begins { IfOk result
            (λ d. BeginsAs S.Start.bytes (⟦<PlacedDisk<'r, R, S> as Disk>⟧.size d)
            (⟦<PlacedDisk<'r, R, S> as Disk>⟧.honest d)
            (⟦<PlacedDisk<'r, R, S> as Disk>⟧.state d)) }
        ensures count { IfOk result (λ d. ⟦<PlacedDisk<'r, R, S> as Disk>⟧.failures d ≡ 0) }
    {
        let disk = FileDisk::open(rt, path, start)?;
        let found = disk.file.metadata()?;
        Ok(PlacedDisk {
            disk,
            place: Place::new(rt, path, &found),
        })
    }
}

impl<'r, R: Files<File = File>, S: Start> Disk for PlacedDisk<'r, R, S> {
    ghost use Rattle.std.specs.Prelude.{refl};

    ghost honest = { λ d. ⟦<FileDisk<S> as Disk>⟧.honest d.disk };

    ghost state = { λ d. ⟦<FileDisk<S> as Disk>⟧.state d.disk };

    ghost size = { λ d. ⟦<FileDisk<S> as Disk>⟧.size d.disk };

    ghost failures = { λ d. ⟦<FileDisk<S> as Disk>⟧.failures d.disk };

    ghost serves = { λ old call result new.
        ⟦<FileDisk<S> as Disk>⟧.serves old.disk call result new.disk };

    ghost whole = { λ d honest. d.disk.long honest.whole };

    ghost own_image = { λ d honest.
        record { size = refl; bytes = d.disk.are_bytes honest.are_bytes; stable = λ _ _. refl } };

    fn size(&self) -> u64 {
        self.disk.size()
    }

    fn read_at(&mut self, at: u64, into: &mut [u8]) -> Result<(), DiskFault> {
        self.disk.read_at(at, into)
    }

    fn write_at(&mut self, at: u64, bytes: &[u8]) -> Result<(), DiskFault> {
        self.disk.write_at(at, bytes)
    }

    fn sync(&mut self) -> Result<(), DiskFault> {
        self.disk.sync()?;
        let found = self.place.look();
        self.disk.pass_sync(found)
    }
}
