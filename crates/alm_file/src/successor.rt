//! The file that takes the place of a device's file.

ghost use Rattle.std.specs.Prelude.{◌≡◌, IfOk};
ghost use Rattle.alm_file.specs.Replay.{BeginsAs};

use crate::file_disk::{FileDisk, MODE, open_apart};
use crate::file_fault::FileFault;
use crate::names::rename_within;
use crate::place::Place;
use crate::start::Start;
use alm_disk::Disk;
use std::fs::{File, Files, Metadata, OpenOptions};
use std::io::{self, ErrorKind};
use std::os::unix::fs::{MetadataExt, OpenOptionsExt, fchown};
use std::path::{Path, PathBuf};

/// What the name of a successor has after that of the device's file.
const SUFFIX: &str = ".upgrade";

/// A new file that is to take the place of a device's file. It lies next to that until then, and has its owner and its permissions.
#[derive(Drop)]
pub struct Successor {
    /// The path of the device's file, without a symbolic link in it.
    device: PathBuf,
    /// That of the new file.
    path: PathBuf,
    /// Which file the device's is, its owner and its permissions.
    found: Metadata,
}

/// The path of the new file, next to that of the device's file.
fn path_next_to<R: AllocGlobal>(rt: &R, path: &str) -> io::Result<PathBuf> {
    let mut text = String::from_str(rt.alloc(), path)?;
    text.push_str(SUFFIX)?;
    Ok(PathBuf::from_str(rt.alloc(), text.as_str())?)
}

impl Successor {
    /// One of the device's file that a path names, and that was opened by it. A symbolic link is followed: it stays, and leads to the
    /// new file later.
    pub fn of<S: Start, R: Files<File = File> + AllocGlobal>(
        rt: &R,
        path: &str,
        device: &FileDisk<S>,
    ) -> Result<Successor, FileFault> {
        let found = device.file.metadata()?;
        let device = rt.canonicalize(rt.alloc(), path)?;
        let path = path_next_to(rt, device.as_str())?;
        Ok(Successor {
            device,
            path,
            found,
        })
    }

    /// Makes the new file, of a size, with room on the disk for the bytes that are used. One that was left there is removed first. If
    /// it can't have the owner of the device's file, or for any other fault, none is left.
    pub fn make<S: Start, R: Files<File = File> + AllocGlobal>(
        &self,
        rt: &R,
        size: u64,
        used: u64,
        _start: S,
    ) -> Result<FileDisk<S>, FileFault>
        ensures begins { IfOk result
            (λ d. BeginsAs S.Start.bytes (⟦<FileDisk<S> as Disk>⟧.size d)
            (⟦<FileDisk<S> as Disk>⟧.honest d) (⟦<FileDisk<S> as Disk>⟧.state d)) }
        ensures size { IfOk result (λ d. ⟦<FileDisk<S> as Disk>⟧.size d ≡ size) }
        ensures count { IfOk result (λ d. ⟦<FileDisk<S> as Disk>⟧.failures d ≡ 0) }
    {
        match rt.remove_file(self.path.as_str()) {
            Err(error) if error.kind() != ErrorKind::NotFound => return Err(FileFault::Io(error)),
            _ => {}
        }
        let made = self.create(rt, size, used);
        if made.is_err() {
            self.give_up(rt);
        }
        made
    }

    /// Creates it where no file is. No byte is written before it has its owner and its permissions.
    fn create<S: Start, R: Files<File = File> + AllocGlobal>(
        &self,
        rt: &R,
        size: u64,
        used: u64,
    ) -> Result<FileDisk<S>, FileFault>
        ensures begins { IfOk result
            (λ d. BeginsAs S.Start.bytes (⟦<FileDisk<S> as Disk>⟧.size d)
            (⟦<FileDisk<S> as Disk>⟧.honest d) (⟦<FileDisk<S> as Disk>⟧.state d)) }
        ensures size { IfOk result (λ d. ⟦<FileDisk<S> as Disk>⟧.size d ≡ size) }
        ensures count { IfOk result (λ d. ⟦<FileDisk<S> as Disk>⟧.failures d ≡ 0) }
    {
        let path = self.path.as_str();
        let mut options = OpenOptions::new();
        options.read(true).write(true).create_new(true).mode(MODE);
        let file = open_apart(rt, &options, path)?;
        fchown(&file, Some(self.found.uid()), Some(self.found.gid()))?;
        file.set_permissions(self.found.permissions())?;
        FileDisk::of_size(rt, file, path, size, used)
    }

    /// Gives the new file the name of the device's, and waits until that is on the disk. It is refused, and the device's file keeps its
    /// name, if that names another file by now. After a failed sync the name has either of the two.
    pub fn take_place<R: Files<File = File>>(&self, rt: &R) -> Result<(), FileFault> {
        let device = self.device.as_str();
        Place::new(rt, device, &self.found).look()?;
        let folder = self.device.parent().unwrap_or(Path::new("/"));
        rename_within(rt, folder.as_str(), self.path.as_str(), device)
    }

    /// Removes the new file. If the system refuses that, the next one that is made there does.
    pub fn give_up<R: Files<File = File>>(&self, rt: &R) {
        let _ = rt.remove_file(self.path.as_str());
    }
}
