//! Faults of the server.

use alm_keeper::OpenFault;

/// Why the server serves no more.
#[derive(Clone, Copy, Debug, PartialEq, Eq)]
pub enum ServeFault {
    /// The device doesn't open.
    Open(OpenFault),
    /// A port or a socket can't be had.
    Net,
    /// The writer failed.
    Write,
    /// No memory, or no thread.
    Memory,
    /// The device failed while it was served, or what was stored could not be published.
    Storage,
}
