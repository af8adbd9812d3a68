//! Lists that are given alarm by alarm.

use crate::tables::table;
use alm_model::{Alarms, List};
use alm_plant::Plant;
use alm_types::{Action, AlarmId, Moment, Reading};
use std::alloc::Global;
use std::test::Fail;

/// A list as a vector is filled with it; an error if it doesn't exist.
fn filled(alloc: Global, plant: &Plant, list: List) -> Result<Vec<u32>, Fail> {
    if !plant.has_list(list) {
        return Err("list".into());
    }
    let mut out = Vec::with_capacity(alloc, plant.alarms())?;
    plant.fill(list, &mut out);
    Ok(out)
}

/// The actions of a plant of twelve alarms of which some are annunciated, a day ago, and some shelved.
fn actions() -> Option<[Action; 7]> {
    let zero = Reading::new(0)?;
    let come = |number| Action::Value(AlarmId(number), zero);
    let shelve = |number| Action::Shelve(AlarmId(number), 256);
    Some([
        come(7),
        come(3),
        come(11),
        come(0),
        Action::Clock(Moment::new(86_400)?),
        shelve(5),
        shelve(2),
    ])
}

/// The plant after them.
fn plant<P: Alarms + Drop>(alloc: Global) -> Result<P, Fail> {
    let rows = table(alloc, 12, 2).ok_or("table")?;
    let mut plant = P::new(alloc, &rows)?;
    for action in actions().ok_or("actions")? {
        if plant.admits(&action).is_ok() {
            plant.apply(&action);
        }
    }
    Ok(plant)
}

/// Whether lists by stamp are the right ones.
fn are_by_stamp(alloc: Global, plant: &Plant) -> Result<bool, Fail> {
    let priority: Vec<u32> = plant.priority_list(2).collect(alloc)?;
    let slot: Vec<u32> = plant.wheel_list(128).collect(alloc)?;
    if plant.areas() < 2 {
        return Ok(false);
    }
    let area: Vec<u32> = plant.area_list(1).collect(alloc)?;
    Ok(
        priority == filled(alloc, plant, List::Priority(2))?
            && slot.as_slice() == [5, 2].as_slice()
            && area.as_slice() == [7, 3, 11].as_slice(),
    )
}

#[test]
fn lists_by_stamp_are_those_that_fill_a_vector(rt: HostRuntime) -> Result<(), Fail> {
    let plant = plant::<Plant>(rt.alloc())?;
    let same = are_by_stamp(rt.alloc(), &plant);
    drop(plant);
    assert!(rt; same?);
    Ok(())
}

/// Whether those of measures are.
fn are_of_measures(alloc: Global, plant: &Plant) -> Result<bool, Fail> {
    let stale: Vec<u32> = plant.stale().collect(alloc)?;
    let chattering: Vec<u32> = plant.chattering().collect(alloc)?;
    Ok(
        stale.as_slice() == [0, 3, 7, 11].as_slice()
            && chattering == filled(alloc, plant, List::Chatter)?,
    )
}

#[test]
fn lists_of_measures_are_those_that_fill_a_vector(rt: HostRuntime) -> Result<(), Fail> {
    let plant = plant::<Plant>(rt.alloc())?;
    let same = are_of_measures(rt.alloc(), &plant);
    drop(plant);
    assert!(rt; same?);
    Ok(())
}
