//! Steps of a row.

use crate::asked::Asked;
use alm_model::List;
use alm_types::{Refusal, Shown};

/// What is asked of a plant, and what it answers.
#[derive(Clone, Copy)]
pub enum Step<'a> {
    /// A slot's request is accepted.
    Done(u8, Asked),
    /// A slot's request is refused.
    Refused(u8, Asked, Refusal),
    /// What is shown of an alarm, whether it is active, its flags and the end of its shelving.
    State(u32, Shown, bool, u8, Option<u64>),
    /// The priority and the setpoint of an alarm.
    Attributes(u32, u8, i64),
    /// There is no such alarm.
    NoAlarm(u32),
    /// The alarms of a list.
    Listed(List, &'a [u32]),
    /// There is no such list.
    NoList(List),
    /// The annunciations of an area in the last 600 seconds, and whether it is flooded.
    Window(u32, u64, bool),
}
