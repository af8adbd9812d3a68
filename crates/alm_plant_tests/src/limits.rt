//! Both plants at their limits: the most alarms, the last moment, and copies.

use alm_common_tests::{moment_of, reading_of, same, slot_of};
use alm_model::{Alarms, List, PlainPlant, PlantParts};
use alm_plant::Plant;
use alm_types::{Action, AlarmId, Attr, Kind, Refusal, Request, Settings, Table, Want};
use std::alloc::Global;
use std::process::Abort;
use std::test::Fail;

/// A table of `rows` alarms, which come at 1 and go at 0, each in the area of its number modulo the areas.
fn table(alloc: Global, rows: u32, areas: u8) -> Result<Table, Fail> {
    let mut alarms = Vec::with_capacity(alloc, rows as usize)?;
    for number in 0..rows {
        let settings = Settings {
            kind: Kind::High,
            setpoint: 1,
            deadband: 0,
            priority: 1,
            area: (number % u32::from(areas.max(1))) as u8,
            latching: false,
            max_shelve: 604_800,
        };
        alarms.push(Attr::new(settings, b"T", b"")?)?;
    }
    Ok(Table::new(alarms, areas)?)
}

/// Asks for an action at a slot.
fn ask<P: Alarms>(plant: &mut P, slot: u8, want: Action) -> Result<(), Fail> {
    let slot = slot_of(slot)?;
    let action = plant.check(&Request {
        slot,
        want: Want::Do(want),
    })?;
    plant.apply(&action);
    Ok(())
}

/// A list of a plant; an error if it doesn't exist.
fn list<P: Alarms>(alloc: Global, plant: &P, list: List) -> Result<Vec<u32>, Fail> {
    if !plant.has_list(list) {
        return Err("list".into());
    }
    let mut out = Vec::with_capacity(alloc, plant.alarms())?;
    plant.fill(list, &mut out);
    Ok(out)
}

/// The area of an alarm.
fn area_of<P: Alarms>(plant: &P, alarm: u32) -> Option<u8> {
    match plant.attr(AlarmId(alarm)) {
        Some(attr) => Some(attr.area),
        None => None,
    }
}

/// The refusal of an action.
fn refusal<P: Alarms>(plant: &P, want: Action) -> Option<Refusal> {
    plant.admits(&want).err()
}

fn largest_plant<P: Alarms + Drop, R: Abort + AllocGlobal>(rt: &R) -> Result<(), Fail> {
    let alloc = rt.alloc();
    let mut plant = P::new(alloc, &table(alloc, 16384, 64)?)?;
    let high = reading_of(1)?;
    for number in 0..16_384_u32 {
        ask(&mut plant, 16, Action::Value(AlarmId(number), high))?;
    }
    same(plant.count(), 16_384)?;
    same(plant.next_stamp(), 16_385)?;
    let all = list(alloc, &plant, List::Priority(1))?;
    same(all.len(), 16_384)?;
    same(all.as_slice().first().copied(), Some(0))?;
    same(all.as_slice().last().copied(), Some(16_383))?;
    let area = list(alloc, &plant, List::Area(63))?;
    same(area.len(), 256)?;
    same(area.as_slice().first().copied(), Some(63))?;
    assert!(rt; !plant.has_list(List::Area(64)));
    same(
        refusal(&plant, Action::Ack(AlarmId(16_384))),
        Some(Refusal::NoSuchAlarm),
    )?;
    Ok(())
}

fn copies_the_largest_plant<P: Alarms + Drop, R: Abort + AllocGlobal>(rt: &R) -> Result<(), Fail> {
    let alloc = rt.alloc();
    let mut plant = P::new(alloc, &table(alloc, 16384, 64)?)?;
    let high = reading_of(1)?;
    ask(&mut plant, 16, Action::Value(AlarmId(16_383), high))?;
    let copy = plant.copy(alloc)?;
    same(copy.alarms(), 16_384)?;
    same(copy.areas(), 64)?;
    same(copy.count(), 1)?;
    same(copy.moments(AlarmId(16_383)).len(), 1)?;
    same(
        list(alloc, &copy, List::Area(63))?.as_slice(),
        [16_383].as_slice(),
    )?;
    Ok(())
}

fn builds_the_largest_plant<P: Alarms + Drop, R: Abort + AllocGlobal>(rt: &R) -> Result<(), Fail> {
    let alloc = rt.alloc();
    let parts = PlantParts::new(alloc, &table(alloc, 16384, 64)?)?;
    let plant = P::build(alloc, parts)?;
    same(plant.alarms(), 16_384)?;
    same(plant.areas(), 64)?;
    same(plant.next_stamp(), 1)?;
    Ok(())
}

#[test]
fn the_largest_plain_plant_is_made_copied_and_built_of_its_parts(
    rt: HostRuntime,
) -> Result<(), Fail> {
    largest_plant::<PlainPlant, _>(&rt)?;
    copies_the_largest_plant::<PlainPlant, _>(&rt)?;
    builds_the_largest_plant::<PlainPlant, _>(&rt)
}

#[test]
fn the_largest_linked_plant_is_made_copied_and_built_of_its_parts(
    rt: HostRuntime,
) -> Result<(), Fail> {
    largest_plant::<Plant, _>(&rt)?;
    copies_the_largest_plant::<Plant, _>(&rt)?;
    builds_the_largest_plant::<Plant, _>(&rt)
}

fn last_moment<P: Alarms + Drop, R: Abort + AllocGlobal>(rt: &R) -> Result<(), Fail> {
    let alloc = rt.alloc();
    let mut plant = P::new(alloc, &table(alloc, 2, 1)?)?;
    let high = reading_of(1)?;
    ask(&mut plant, 16, Action::Value(AlarmId(1), high))?;
    let last = moment_of(1_099_511_627_775)?;
    ask(&mut plant, 0, Action::Shelve(AlarmId(0), 604_800))?;
    ask(&mut plant, 17, Action::Clock(last))?;
    same(plant.now(), last)?;
    same(
        refusal(&plant, Action::Clock(last)),
        Some(Refusal::ClockBack),
    )?;
    ask(&mut plant, 0, Action::Shelve(AlarmId(0), 604_800))?;
    let row = plant.state(AlarmId(0)).ok_or("row")?;
    same(row.shelved_until, Some(1_099_512_232_575))?;
    same(list(alloc, &plant, List::Stale)?.as_slice(), [1].as_slice())?;
    Ok(())
}

#[test]
fn the_last_moment(rt: HostRuntime) -> Result<(), Fail> {
    last_moment::<PlainPlant, _>(&rt)?;
    last_moment::<Plant, _>(&rt)
}

fn copy_is_the_same_plant<P: Alarms + Drop, R: Abort + AllocGlobal>(rt: &R) -> Result<(), Fail> {
    let alloc = rt.alloc();
    let mut plant = P::new(alloc, &table(alloc, 3, 2)?)?;
    let high = reading_of(1)?;
    ask(&mut plant, 17, Action::Clock(moment_of(5)?))?;
    for number in [2, 0] {
        ask(&mut plant, 16, Action::Value(AlarmId(number), high))?;
    }
    let copy = plant.copy(alloc)?;
    same(copy.now(), plant.now())?;
    same(copy.count(), 3)?;
    same(copy.next_stamp(), 3)?;
    same(copy.state(AlarmId(2)), plant.state(AlarmId(2)))?;
    same(area_of(&copy, 2), Some(0))?;
    same(area_of(&copy, 3), None)?;
    same(copy.moments(AlarmId(2)).len(), 1)?;
    same(copy.moments(AlarmId(1)).len(), 0)?;
    same(
        list(alloc, &copy, List::Priority(1))?.as_slice(),
        [2, 0].as_slice(),
    )?;
    Ok(())
}

fn copy_has_the_same_measures<P: Alarms + Drop, R: Abort + AllocGlobal>(
    rt: &R,
) -> Result<(), Fail> {
    let alloc = rt.alloc();
    let mut plant = P::new(alloc, &table(alloc, 3, 2)?)?;
    let high = reading_of(1)?;
    for number in [2, 0] {
        ask(&mut plant, 16, Action::Value(AlarmId(number), high))?;
    }
    let copy = plant.copy(alloc)?;
    assert!(rt; copy.has_list(List::Area(0)));
    same(copy.window(0), (2, false))?;
    same(copy.age(0, 0), 2)?;
    same(copy.age(0, 599), 0)?;
    Ok(())
}

#[test]
fn a_copy_is_the_same_plant_with_the_same_measures(rt: HostRuntime) -> Result<(), Fail> {
    copy_is_the_same_plant::<PlainPlant, _>(&rt)?;
    copy_has_the_same_measures::<PlainPlant, _>(&rt)?;
    copy_is_the_same_plant::<Plant, _>(&rt)?;
    copy_has_the_same_measures::<Plant, _>(&rt)
}
