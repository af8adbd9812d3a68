//! Why a device can't be opened.

/// Why a device can't be opened.
#[derive(Clone, Copy, Debug, PartialEq, Eq)]
pub enum DeviceFault {
    /// It has fewer bytes than a header, or the header's gate is closed: it was never formatted, or not to the end.
    Unformatted,
    /// The first field that breaks a rule.
    Damaged {
        /// 0 or 1; 2 is the header.
        half: u8,
        /// The start of the field on the device.
        at: u64,
    },
}
