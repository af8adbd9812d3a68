//! Faults of attributes.

/// The attribute that is out of its limits.
#[derive(Clone, Copy, Debug, PartialEq, Eq)]
pub enum AttrFault {
    /// Below -10^12 or above 10^12.
    Setpoint,
    /// Above 10^12; for a discrete alarm above 0.
    Deadband,
    /// 0, or above 4.
    Priority,
    /// Above 63.
    Area,
    /// Above 604,800 seconds.
    MaxShelve,
    /// Empty, longer than 32 bytes, or with a byte outside 0x21 to 0x7E.
    Tag,
    /// Longer than 80 bytes, or with a byte outside 0x20 to 0x7E.
    Text,
}
