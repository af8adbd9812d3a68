//! Rows of priorities and setpoints that consoles change.

use crate::asked::Asked::{Clock, SetPriority, SetSetpoint, Shelve, Value};
use crate::check::{Row, check_all};
use crate::step::Step::{Attributes, Done, Listed, Refused, State};
use alm_model::List;
use alm_types::{Refusal, Shown};
use std::test::Fail;

/// Each row by its name.
const CHANGES: [Row; 4] = [
    (
        "An alarm of another priority stands by its stamp in the new list",
        &[
            Done(17, Clock(1000)),
            Done(16, Value(0, 800)),
            Done(16, Value(2, 1)),
            Done(16, Value(1, 100)),
            Done(0, SetPriority(1, 1)),
            Listed(List::Priority(1), &[0, 2, 1]),
            Done(0, SetPriority(0, 2)),
            Done(0, SetPriority(1, 2)),
            Done(0, SetPriority(2, 2)),
            Listed(List::Priority(2), &[0, 2, 1]),
            Listed(List::Priority(1), &[]),
            Refused(0, SetPriority(2, 2), Refusal::SameValue),
            Refused(0, SetPriority(2, 5), Refusal::PriorityRange),
            Refused(16, SetPriority(0, 1), Refusal::WrongRole),
            Attributes(2, 2, 1),
        ],
    ),
    (
        "A new setpoint judges the condition from the next value on",
        &[
            Done(17, Clock(1000)),
            Done(16, Value(0, 800)),
            Done(0, SetSetpoint(0, 900)),
            Attributes(0, 1, 900),
            State(0, Shown::Unack, true, 0, None),
            Refused(16, Value(0, 895), Refusal::NoChange),
            Done(16, Value(0, 889)),
            State(0, Shown::RtnUnack, false, 0, None),
            Refused(16, Value(0, 899), Refusal::NoChange),
            Refused(0, SetSetpoint(0, 900), Refusal::SameValue),
            Refused(16, SetSetpoint(0, 800), Refusal::WrongRole),
        ],
    ),
    (
        "Priorities out of their limits are refused before the present one",
        &[
            Refused(0, SetPriority(0, 0), Refusal::PriorityRange),
            Refused(0, SetPriority(0, 5), Refusal::PriorityRange),
            Refused(0, SetPriority(0, 257), Refusal::PriorityRange),
            Refused(0, SetPriority(0, 4_294_967_295), Refusal::PriorityRange),
            Refused(0, SetPriority(0, 1), Refusal::SameValue),
            Refused(0, SetPriority(4, 9), Refusal::NoSuchAlarm),
            Refused(17, SetPriority(4, 9), Refusal::WrongRole),
            Done(0, SetPriority(0, 4)),
            Attributes(0, 4, 800),
        ],
    ),
    (
        "Both are allowed while an alarm is suppressed, and hold when it is annunciated again",
        &[
            Done(17, Clock(1000)),
            Done(16, Value(0, 800)),
            Done(0, Shelve(0, 60)),
            Done(0, SetPriority(0, 3)),
            Done(0, SetSetpoint(0, 700)),
            State(0, Shown::Shelved, true, 1, Some(1060)),
            Listed(List::Priority(3), &[]),
            Done(17, Clock(1060)),
            State(0, Shown::Unack, true, 0, None),
            Listed(List::Priority(1), &[]),
            Listed(List::Priority(3), &[0]),
            Refused(16, Value(0, 690), Refusal::NoChange),
            Done(16, Value(0, 689)),
        ],
    ),
];

#[test]
fn each_row_of_changes(rt: HostRuntime) -> Result<(), Fail> {
    check_all(&rt, &CHANGES)
}
