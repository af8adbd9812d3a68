//! Settings of an alarm.

use crate::kind::Kind;

/// The numbers of an alarm as they were asked for: they may be out of range.
#[derive(Clone, Copy, Debug, PartialEq, Eq)]
pub struct Settings {
    pub kind: Kind,
    pub setpoint: i64,
    pub deadband: u64,
    pub priority: u8,
    pub area: u8,
    pub latching: bool,
    pub max_shelve: u32,
}
