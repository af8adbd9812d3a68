//! The fault of a device.

use thiserror::Error;

/// A call of a device failed.
#[derive(Clone, Copy, Debug, PartialEq, Eq, Error)]
#[error("a call of the device failed")]
pub struct DiskFault;
