//! The row of an alarm.

use crate::last_moments::LastMoments;
use crate::reading::Reading;
use crate::shown::Shown;

/// What a list of alarms shows of one of them.
#[derive(Drop)]
pub struct AlarmRow {
    pub shown: Shown,
    /// Whether the alarm's condition holds.
    pub active: bool,
    /// 1 shelved, 2 by design, 4 out of service, added.
    pub flags: u8,
    /// The moment at which the shelving ends.
    pub until: Option<u64>,
    /// The stamp of the last annunciation while annunciated, that of the shelving while shelved, else 0.
    pub stamp: u64,
    /// The priority in force, 1 to 4.
    pub priority: u8,
    /// The setpoint in force, in the alarm's own unit.
    pub setpoint: Reading,
    /// When the alarm was annunciated last.
    pub moments: LastMoments,
}
