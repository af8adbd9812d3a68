//! Moments, readings, slots and refusals.

use alm_common_tests::{same, same_at};
use alm_types::{Moment, Reading, Refusal, Role, Slot};
use std::test::Fail;

/// Seconds, and whether they are a moment.
const MOMENTS: [(u64, bool); 5] = [
    (0, true),
    (1, true),
    (1_099_511_627_775, true),
    (1_099_511_627_776, false),
    (u64::MAX, false),
];

#[test]
fn moments_below_2_to_the_40() -> Result<(), Fail> {
    for (seconds, good) in MOMENTS {
        let moment = Moment::new(seconds);
        same_at(seconds, moment.is_some(), good)?;
        same(moment.map_or(seconds, |m| m.seconds()), seconds)?;
    }
    Ok(())
}

/// Numbers, and whether they are a reading.
const READINGS: [(i64, bool); 7] = [
    (0, true),
    (-1_000_000_000_000, true),
    (-1_000_000_000_001, false),
    (1_000_000_000_000, true),
    (1_000_000_000_001, false),
    (i64::MIN, false),
    (i64::MAX, false),
];

#[test]
fn readings_to_10_to_the_12() -> Result<(), Fail> {
    for (value, good) in READINGS {
        let reading = Reading::new(value);
        same_at(value, reading.is_some(), good)?;
        same(reading.map_or(value, |r| r.value()), value)?;
    }
    Ok(())
}

/// Numbers, and the role of a slot of each.
const SLOTS: [(u8, Option<Role>); 6] = [
    (0, Some(Role::Console)),
    (15, Some(Role::Console)),
    (16, Some(Role::Feed)),
    (17, Some(Role::Clock)),
    (18, None),
    (255, None),
];

#[test]
fn eighteen_slots() -> Result<(), Fail> {
    for (number, role) in SLOTS {
        same_at(number, Slot::new(number).map(|slot| slot.role()), role)?;
    }
    Ok(())
}

/// Refusals, and the number of each.
const REFUSALS: [(Refusal, u8); 20] = [
    (Refusal::NoSuchAlarm, 1),
    (Refusal::NotUnacknowledged, 2),
    (Refusal::NotResettable, 3),
    (Refusal::AlreadyShelved, 4),
    (Refusal::NotShelved, 5),
    (Refusal::ShelveLength, 6),
    (Refusal::AlreadySet, 7),
    (Refusal::NotSet, 8),
    (Refusal::NoChange, 9),
    (Refusal::ClockBack, 10),
    (Refusal::WrongRole, 11),
    (Refusal::Busy, 12),
    (Refusal::BadLine, 13),
    (Refusal::LineTooLong, 14),
    (Refusal::Stopped, 15),
    (Refusal::OutOfMemory, 16),
    (Refusal::NoSuchList, 17),
    (Refusal::Exhausted, 18),
    (Refusal::PriorityRange, 19),
    (Refusal::SameValue, 20),
];

#[test]
fn refusals_have_their_numbers() -> Result<(), Fail> {
    for (refusal, number) in REFUSALS {
        same(refusal.number(), number)?;
    }
    Ok(())
}
