//! Calls of a device.

/// A call of a device, with its range in bytes.
#[derive(Clone, Copy, Debug, PartialEq, Eq)]
pub enum Call {
    Read { at: u64, length: u64 },
    Write { at: u64, length: u64 },
    Sync,
}
