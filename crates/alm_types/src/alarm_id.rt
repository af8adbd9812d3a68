//! Numbers of alarms.

/// The number of an alarm: its place in the table. The alarm need not exist.
#[derive(Clone, Copy, Debug, PartialEq, Eq, PartialOrd, Ord)]
pub struct AlarmId(pub u32);
