//! What an action leaves of an alarm's attributes.

ghost use Rattle.std.specs.Prelude.{◌≡◌, None};
ghost use Rattle.alm_state.specs.Outcome.{attr_after, row_refusal};

use crate::row::Row;
use alm_types::{Action, Attr};

/// The attributes after an action that names the alarm.
pub fn attr_after(action: &Action, attr: &Attr, row: &Row) -> Attr
    requires admitted { row_refusal action.now attr.now row.now ≡ None }
    ensures { result ≡ attr_after action.now attr.now }
{
    match *action {
        Action::SetPriority(_, priority) => attr.with_priority(priority as u8),
        Action::SetSetpoint(_, setpoint) => attr.with_setpoint(setpoint),
        _ => *attr,
    }
}
