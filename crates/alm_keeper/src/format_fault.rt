//! Why a device isn't formatted.

/// Why a device isn't formatted.
#[derive(Clone, Copy, Debug, PartialEq, Eq)]
pub enum FormatFault {
    /// No segment fits twice. The device is unchanged.
    TooSmall,
    /// The device is unchanged.
    OutOfMemory,
    /// The device has failed: it must be formatted again.
    Disk,
}
