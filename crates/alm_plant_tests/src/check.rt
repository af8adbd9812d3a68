//! A check of a row.

use crate::asked::Asked;
use crate::step::Step;
use alm_common_tests::{same_at, slot_of};
use alm_desk::worked_table;
use alm_model::{Alarms, List, PlainPlant};
use alm_plant::Plant;
use alm_types::{AlarmId, Answer, Refusal, Request, Shown, Table, Want};
use std::alloc::{AllocError, Global};
use std::process::Abort;
use std::test::Fail;

/// A row: its name, and its steps on a new plant of the worked table.
pub type Row = (&'static str, &'static [Step<'static>]);

/// Whether what a slot asks for is done, and counted, or refused as it should be, and not counted.
fn is_answered<P: Alarms>(
    plant: &mut P,
    slot: u8,
    want: Asked,
    wanted: Option<Refusal>,
) -> Result<bool, Fail> {
    let slot = slot_of(slot)?;
    let want = want.action()?;
    let before = plant.count();
    Ok(
        match plant.check(&Request {
            slot,
            want: Want::Do(want),
        }) {
            Ok(action) => {
                plant.apply(&action);
                wanted.is_none() && action == want && plant.count() == before.wrapping_add(1)
            }
            Err(refusal) => wanted == Some(refusal) && plant.count() == before,
        },
    )
}

/// Whether a plant shows this of an alarm.
fn shows<P: Alarms>(
    alloc: Global,
    plant: &P,
    alarm: u32,
    wanted: (Shown, bool, u8, Option<u64>),
) -> bool {
    let Some(row) = plant.state(AlarmId(alarm)) else {
        return false;
    };
    let mut answer = Answer::new(alloc);
    row.report(&mut answer);
    (answer.shown, answer.active, answer.flags, answer.until) == wanted
}

/// Whether an alarm has this priority and this setpoint.
fn has_attributes<P: Alarms>(plant: &P, alarm: u32, wanted: (u8, i64)) -> bool {
    match plant.attr(AlarmId(alarm)) {
        Some(attr) => (attr.priority, attr.setpoint.value()) == wanted,
        None => false,
    }
}

/// Whether these are the alarms of a list.
fn lists<P: Alarms>(
    alloc: Global,
    plant: &P,
    list: List,
    wanted: &[u32],
) -> Result<bool, AllocError> {
    if !plant.has_list(list) {
        return Ok(false);
    }
    let mut out = Vec::with_capacity(alloc, plant.alarms())?;
    plant.fill(list, &mut out);
    Ok(out.as_slice() == wanted)
}

/// Whether an area has this window and this flag.
fn has_window<P: Alarms>(plant: &P, area: u32, wanted: (u64, bool)) -> bool {
    plant.has_list(List::Area(area)) && plant.window(area) == wanted
}

/// Whether a step does what it should.
fn goes<P: Alarms>(alloc: Global, plant: &mut P, step: &Step<'_>) -> Result<bool, Fail> {
    Ok(match step {
        Step::Done(slot, want) => is_answered(plant, *slot, *want, None)?,
        Step::Refused(slot, want, refusal) => is_answered(plant, *slot, *want, Some(*refusal))?,
        Step::State(alarm, shown, active, flags, until) => {
            shows(alloc, plant, *alarm, (*shown, *active, *flags, *until))
        }
        Step::Attributes(alarm, priority, setpoint) => {
            has_attributes(plant, *alarm, (*priority, *setpoint))
        }
        Step::NoAlarm(alarm) => plant.state(AlarmId(*alarm)).is_none(),
        Step::Listed(list, wanted) => lists(alloc, plant, *list, wanted)?,
        Step::NoList(list) => !plant.has_list(*list),
        Step::Window(area, window, flood) => has_window(plant, *area, (*window, *flood)),
    })
}

/// The first step of a row that doesn't do what it should on a new plant, or on a copy of the plant before it.
fn first_wrong<P: Alarms + Drop>(
    alloc: Global,
    table: &Table,
    row: &[Step<'_>],
) -> Result<Option<usize>, Fail> {
    let mut plant = P::new(alloc, table)?;
    let mut copy = P::new(alloc, table)?;
    for (place, step) in row.iter().enumerate() {
        copy = copy.copy(alloc)?;
        if !goes(alloc, &mut plant, step)? || !goes(alloc, &mut copy, step)? {
            return Ok(Some(place));
        }
    }
    Ok(None)
}

/// Checks rows on each plant there is.
pub fn check_all<R: Abort + AllocGlobal>(rt: &R, rows: &[Row]) -> Result<(), Fail> {
    let alloc = rt.alloc();
    let table = worked_table(alloc)?;
    for (name, row) in rows {
        let wrong = first_wrong::<PlainPlant>(alloc, &table, row)?;
        same_at(name, wrong, None)?;
        let wrong = first_wrong::<Plant>(alloc, &table, row)?;
        same_at(name, wrong, None)?;
    }
    Ok(())
}
