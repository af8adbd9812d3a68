//! Faults of files and streams.

ghost use Rattle.std.specs.Prelude.{◌≡◌};
ghost use Rattle.std.specs.IoError.{error_kind};
ghost use Rattle.alm_program.specs.Faults.{fault_of_error, fault_of_file};

use crate::fault::Fault;
use alm_file::FileFault;
use std::io::{self, ErrorKind};

/// What a refused call of a file or a stream is to the program.
pub fn io_fault(error: io::Error) -> Fault
    ensures { result ≡ fault_of_error (error_kind error) }
{
    match error.kind() {
        ErrorKind::OutOfMemory => Fault::OutOfMemory,
        _ => Fault::Io,
    }
}

/// The fault of a device's file that isn't opened: one that is a standard stream is wrong usage, and one whose sync failed is a
/// device that failed.
pub fn file_fault(fault: FileFault) -> Fault
    ensures { result ≡ fault_of_file fault }
{
    match fault {
        FileFault::Stream => Fault::Usage,
        FileFault::Sync(_) => Fault::Disk,
        FileFault::Io(error) => io_fault(error),
    }
}
