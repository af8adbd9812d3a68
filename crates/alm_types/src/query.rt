//! Queries.

use crate::alarm_id::AlarmId;

/// What is asked of a plant without changing it.
#[derive(Clone, Copy, Debug, PartialEq, Eq)]
pub enum Query {
    /// What is shown of an alarm.
    State(AlarmId),
    /// The annunciated alarms of a priority, 1 to 4.
    Priority(u32),
    /// The annunciated alarms of an area.
    Area(u32),
    /// The shelved alarms of a wheel slot, 0 to 255: those whose deadline is the slot modulo 256.
    Wheel(u32),
    /// The window of an area, and whether it is flooded.
    Flood(u32),
    /// The alarms annunciated for a day or longer.
    Stale,
    /// The alarms annunciated three times or more within a minute.
    Chatter,
    /// The plant's moment, and how many alarms and areas it has.
    Plant,
    /// The attributes of an alarm that are in force.
    Attributes(AlarmId),
    /// The row of an alarm: what is shown of it, when it was annunciated, and which limits are in force.
    Row(AlarmId),
}
