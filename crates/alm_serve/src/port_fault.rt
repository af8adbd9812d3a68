//! Faults of ports and sockets.

use std::alloc::AllocError;
use std::io::{self, ErrorKind};

/// Why a port or a socket can't be had.
#[derive(Clone, Copy, Debug, PartialEq, Eq)]
pub enum PortFault {
    /// It can't be bound, or not be waited for.
    Net,
    OutOfMemory,
}

impl From<AllocError> for PortFault {
    ghost use Rattle.std.specs.Prelude.{◌≡◌};
    ghost use Rattle.alm_serve.specs.declared.port_fault.PortFault.TheVariants.{OutOfMemory};

    ghost from_gives = { λ _ fault. fault ≡ OutOfMemory };

    fn from(_: AllocError) -> Self {
        PortFault::OutOfMemory
    }
}

impl From<io::Error> for PortFault {
    fn from(error: io::Error) -> Self {
        if error.kind() == ErrorKind::OutOfMemory {
            PortFault::OutOfMemory
        } else {
            PortFault::Net
        }
    }
}
