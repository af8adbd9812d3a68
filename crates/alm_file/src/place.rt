//! The place of an open file: its path, and which file that named.

use std::fs::{self, File, Files, Metadata};
use std::io::{self, ErrorKind};
use std::os::unix::fs::MetadataExt;

/// The error of a file that is no longer at its path, or has another size.
pub fn replaced() -> io::Error {
    io::Error::new(ErrorKind::NotFound, "another file")
}

/// The path that a file was opened by, and what identifies that file: its file system, and its number there.
#[derive(Drop)]
pub struct Place<'r, R: Files<File = File>> {
    rt: &'r R,
    path: &'r str,
    device: u64,
    inode: u64,
}

impl<'r, R: Files<File = File>> Place<'r, R> {
    /// The place of a file that was opened by this path, by what was found of it.
    pub fn new(rt: &'r R, path: &'r str, found: &Metadata) -> Self {
        Place {
            rt,
            path,
            device: found.dev(),
            inode: found.ino(),
        }
    }

    /// Fails unless the path still names that file.
    pub fn look(&self) -> io::Result<()> {
        let found = fs::metadata(self.rt, self.path)?;
        if found.dev() == self.device && found.ino() == self.inode {
            Ok(())
        } else {
            Err(replaced())
        }
    }
}
