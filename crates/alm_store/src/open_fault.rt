//! Why a device is not opened.

/// Why a device is not opened.
#[derive(Clone, Copy, Debug, PartialEq, Eq)]
pub enum OpenFault {
    /// The device was never formatted, or not to the end.
    Unformatted,
    /// The first field that breaks a rule: in which half (0 or 1; 2 is the header), and its place on the device.
    Damaged { half: u8, at: u64 },
    /// The device has failed.
    Disk,
    /// It says nothing about the bytes.
    OutOfMemory,
}
