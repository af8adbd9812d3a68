//! What can be done to a plant.

use crate::alarm_id::AlarmId;
use crate::moment::Moment;
use crate::reading::Reading;

/// The most actions that a plant takes in its life.
pub const MOST_ACTIONS: u64 = 1 << 48;

/// A change of the plant, whoever asks for it.
#[derive(Clone, Copy, Debug, PartialEq, Eq)]
pub enum Action {
    /// The clock moves to a moment.
    Clock(Moment),
    /// A process value comes in.
    Value(AlarmId, Reading),
    /// The operator acknowledges.
    Ack(AlarmId),
    /// The operator resets a latched alarm.
    Reset(AlarmId),
    /// The operator shelves for this number of seconds.
    Shelve(AlarmId, u32),
    /// The operator ends a shelving.
    Unshelve(AlarmId),
    /// Out of service, on or off.
    Oos(AlarmId, bool),
    /// Suppressed by design, on or off.
    Design(AlarmId, bool),
    /// The operator gives the alarm another priority, which may be out of range.
    SetPriority(AlarmId, u32),
    /// The operator gives the alarm another setpoint.
    SetSetpoint(AlarmId, Reading),
}
