//! Lists of alarms.

/// The slots of the wheel, which hold shelved alarms by the moment at which the shelving ends.
pub const WHEEL_SLOTS: u32 = 256;

/// A list of alarms.
#[derive(Clone, Copy, Debug, PartialEq, Eq)]
pub enum List {
    Priority(u32),
    Area(u32),
    Wheel(u32),
    Stale,
    Chatter,
}
