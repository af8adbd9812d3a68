//! Why an alarm refuses an action.

ghost use Rattle.std.specs.Prelude.{◌≡◌};
ghost use Rattle.alm_state.specs.Outcome.{row_refusal, flag_refusal, priority_refusal, setpoint_refusal};

use crate::detection::detect;
use crate::happening::Happening;
use crate::row::Row;
use alm_types::{Action, Attr, Reading, Refusal};

/// Why a flag is not set or cleared: it is so already.
fn flag_refusal(on: bool, set: bool) -> Option<Refusal>
    ensures { result ≡ flag_refusal on set }
{
    match (on, set) {
        (true, true) => Some(Refusal::AlreadySet),
        (false, false) => Some(Refusal::NotSet),
        _ => None,
    }
}

/// Why an alarm takes no such priority.
fn priority_refusal(attr: &Attr, priority: u32) -> Option<Refusal>
    ensures { result ≡ priority_refusal attr.now priority }
{
    if priority < 1 || priority > 4 {
        Some(Refusal::PriorityRange)
    } else if priority == u32::from(attr.priority) {
        Some(Refusal::SameValue)
    } else {
        None
    }
}

/// Why an alarm takes no such setpoint: it has it.
fn setpoint_refusal(attr: &Attr, setpoint: Reading) -> Option<Refusal>
    ensures { result ≡ setpoint_refusal attr.now setpoint }
{
    if setpoint.value() == attr.setpoint.value() {
        Some(Refusal::SameValue)
    } else {
        None
    }
}

/// Why the alarm refuses an action that names it.
#[inline(always)]
pub fn row_refusal(action: &Action, attr: &Attr, row: &Row) -> Option<Refusal>
    ensures { result ≡ row_refusal action.now attr.now row.now }
{
    match *action {
        Action::Clock(_) => None,
        Action::Value(_, reading) => match detect(attr, row.active, reading) {
            Some(_) => None,
            None => Some(Refusal::NoChange),
        },
        Action::Ack(_) => row.core.next(Happening::Ack, attr.latching).err(),
        Action::Reset(_) => row.core.next(Happening::Reset, attr.latching).err(),
        Action::Shelve(_, seconds) => {
            if row.shelved_until.is_some() {
                Some(Refusal::AlreadyShelved)
            } else if seconds == 0 || seconds > attr.max_shelve {
                Some(Refusal::ShelveLength)
            } else {
                None
            }
        }
        Action::Unshelve(_) => {
            if row.shelved_until.is_some() {
                None
            } else {
                Some(Refusal::NotShelved)
            }
        }
        Action::Oos(_, on) => flag_refusal(on, row.out_of_service),
        Action::Design(_, on) => flag_refusal(on, row.by_design),
        Action::SetPriority(_, priority) => priority_refusal(attr, priority),
        Action::SetSetpoint(_, setpoint) => setpoint_refusal(attr, setpoint),
    }
}
