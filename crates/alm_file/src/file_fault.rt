//! Why a device's file isn't opened.

use std::io;

/// Why a device's file isn't opened. Its bytes are unchanged; one that is created may have its new size already.
#[derive(Debug, thiserror::Error, Drop)]
pub enum FileFault {
    /// Standard input, output or error is this very file.
    #[error("the file is a standard stream's")]
    Stream,
    /// A sync of its bytes or of its name failed.
    #[error("{0}")]
    Sync(io::Error),
    /// There is none, it isn't a regular file, or a system call failed.
    #[error("{0}")]
    Io(io::Error),
}

impl From<io::Error> for FileFault {
    fn from(error: io::Error) -> Self {
        FileFault::Io(error)
    }
}
