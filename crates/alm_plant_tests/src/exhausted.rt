//! A plant that has had all its actions.

use crate::asked::Asked;
use alm_common_tests::{holds_at, slot_of};
use alm_desk::worked_table;
use alm_model::{Alarms, PlainPlant, PlantParts};
use alm_plant::Plant;
use alm_types::{Refusal, Request, Want};
use std::alloc::Global;
use std::test::Fail;

/// What each slot asks of such a plant, and why it is refused: last because no action numbers are left.
const REFUSED: [(u8, Asked, Refusal); 10] = [
    (17, Asked::Clock(5), Refusal::Exhausted),
    (17, Asked::Clock(0), Refusal::ClockBack),
    (0, Asked::Ack(0), Refusal::NotUnacknowledged),
    (0, Asked::Shelve(0, 5), Refusal::Exhausted),
    (0, Asked::SetPriority(0, 2), Refusal::Exhausted),
    (0, Asked::SetPriority(0, 1), Refusal::SameValue),
    (0, Asked::SetPriority(0, 5), Refusal::PriorityRange),
    (0, Asked::SetPriority(4, 5), Refusal::NoSuchAlarm),
    (0, Asked::SetSetpoint(0, 900), Refusal::Exhausted),
    (0, Asked::SetSetpoint(0, 800), Refusal::SameValue),
];

/// A plant of the worked table that has had all its actions.
fn full<P: Alarms>(alloc: Global) -> Result<P, Fail> {
    let mut parts = PlantParts::new(alloc, &worked_table(alloc)?)?;
    parts.count = 1 << 48;
    Ok(P::build(alloc, parts)?)
}

/// The first of them that such a plant answers otherwise.
fn first_wrong<P: Alarms + Drop>(alloc: Global) -> Result<Option<Asked>, Fail> {
    let plant = full::<P>(alloc)?;
    for (slot, want, refusal) in REFUSED {
        let slot = slot_of(slot)?;
        let request = Request {
            slot,
            want: Want::Do(want.action()?),
        };
        if plant.check(&request).err() != Some(refusal) {
            return Ok(Some(want));
        }
    }
    Ok(None)
}

#[test]
fn a_full_plant_refuses_last_for_want_of_numbers(rt: HostRuntime) -> Result<(), Fail> {
    let wrong = first_wrong::<PlainPlant>(rt.alloc())?;
    holds_at(wrong, wrong.is_none())?;
    Ok(())
}

#[test]
fn a_full_linked_plant_refuses_last_for_want_of_numbers(rt: HostRuntime) -> Result<(), Fail> {
    let wrong = first_wrong::<Plant>(rt.alloc())?;
    holds_at(wrong, wrong.is_none())?;
    Ok(())
}
