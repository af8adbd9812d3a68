//! The file of a device, opened once more.

use crate::disk_cache::forget;
use crate::file_disk::open_apart;
use crate::file_fault::FileFault;
use crate::pause_between::PauseBetween;
use crate::scrub_read::ScrubRead;
use std::fs::{File, Files, OpenOptions};

/// The file of a device that this process has open elsewhere, to be read alone. It has no lock.
#[derive(Drop)]
pub struct ScrubFile {
    file: File,
}

impl ScrubFile {
    /// The file at a path.
    pub fn open<R: Files<File = File>>(rt: &R, path: &str) -> Result<Self, FileFault> {
        let file = open_apart(rt, OpenOptions::new().read(true), path)?;
        Ok(ScrubFile { file })
    }

    /// A reading of it with its present length. The kernel drops its cache of it: what is read comes from the disk, except for what
    /// isn't written yet.
    pub fn read<'p, P: PauseBetween>(
        &'p self,
        pause: &'p P,
    ) -> Result<ScrubRead<'p, P>, FileFault> {
        let size = self.file.metadata()?.len();
        forget(&self.file);
        Ok(ScrubRead::new(&self.file, pause, size))
    }
}
