//! Actions by their numbers.

use alm_common_tests::{moment_of, reading_of};
use alm_types::{Action, AlarmId};
use std::test::Fail;

/// What a slot asks for, by numbers, so that a constant can have it.
#[derive(Clone, Copy, Debug)]
pub enum Asked {
    Clock(u64),
    Value(u32, i64),
    Ack(u32),
    Reset(u32),
    Shelve(u32, u32),
    Unshelve(u32),
    Oos(u32, bool),
    Design(u32, bool),
    SetPriority(u32, u32),
    SetSetpoint(u32, i64),
}

impl Asked {
    /// The action of these numbers; an error if a number is out of its range.
    pub fn action(self) -> Result<Action, Fail> {
        Ok(match self {
            Asked::Clock(seconds) => Action::Clock(moment_of(seconds)?),
            Asked::Value(alarm, value) => { Action::Value(AlarmId(alarm), reading_of(value)?) }
            Asked::Ack(alarm) => Action::Ack(AlarmId(alarm)),
            Asked::Reset(alarm) => Action::Reset(AlarmId(alarm)),
            Asked::Shelve(alarm, seconds) => Action::Shelve(AlarmId(alarm), seconds),
            Asked::Unshelve(alarm) => Action::Unshelve(AlarmId(alarm)),
            Asked::Oos(alarm, on) => Action::Oos(AlarmId(alarm), on),
            Asked::Design(alarm, on) => Action::Design(AlarmId(alarm), on),
            Asked::SetPriority(alarm, priority) => Action::SetPriority(AlarmId(alarm), priority),
            Asked::SetSetpoint(alarm, setpoint) => {
                Action::SetSetpoint(AlarmId(alarm), reading_of(setpoint)?)
            }
        })
    }
}
