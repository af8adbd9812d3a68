//! Stamps, and what depends on them.

use crate::asked::Asked;
use alm_common_tests::{same, slot_of};
use alm_model::{Alarms, List, PlainPlant};
use alm_plant::Plant;
use alm_types::{AlarmId, Attr, Kind, Request, Settings, Table, Want};
use std::alloc::Global;
use std::process::Abort;
use std::test::Fail;

/// Alarms of one area that come at 1, go at 0 and may be shelved for an hour.
const ALARM: Settings = Settings {
    kind: Kind::High,
    setpoint: 1,
    deadband: 0,
    priority: 1,
    area: 0,
    latching: false,
    max_shelve: 3600,
};

/// A plant of three such alarms, at 1000.
fn three<P: Alarms + Drop>(alloc: Global) -> Result<P, Fail> {
    let alarms = vec![in alloc; Attr::new(ALARM, b"T", b"")?; 3]?;
    let mut plant = P::new(alloc, &Table::new(alarms, 1)?)?;
    ask(&mut plant, 17, Asked::Clock(1000))?;
    Ok(plant)
}

/// Asks at a slot.
fn ask<P: Alarms>(plant: &mut P, slot: u8, want: Asked) -> Result<(), Fail> {
    let slot = slot_of(slot)?;
    let want = want.action()?;
    let action = plant.check(&Request {
        slot,
        want: Want::Do(want),
    })?;
    plant.apply(&action);
    Ok(())
}

/// The stamp of an alarm.
fn stamp<P: Alarms>(plant: &P, alarm: u32) -> Option<u64> {
    plant.state(AlarmId(alarm)).map(|row| row.stamp)
}

fn shelvings<P: Alarms + Drop, R: Abort + AllocGlobal>(rt: &R) -> Result<(), Fail> {
    let alloc = rt.alloc();
    let mut plant = three::<P>(alloc)?;
    for alarm in 0..3_u32 {
        ask(&mut plant, 16, Asked::Value(alarm, 1))?;
    }
    for (alarm, seconds) in [(0, 300), (1, 20), (2, 150)] {
        ask(&mut plant, 0, Asked::Shelve(alarm, seconds))?;
    }
    ask(&mut plant, 17, Asked::Clock(2000))?;
    let mut area = Vec::with_capacity(alloc, plant.alarms())?;
    assert!(rt; plant.has_list(List::Area(0)));
    plant.fill(List::Area(0), &mut area);
    same(area.as_slice(), [1, 2, 0].as_slice())?;
    Ok(())
}

#[test]
fn three_shelvings_end_by_deadline(rt: HostRuntime) -> Result<(), Fail> {
    shelvings::<PlainPlant, _>(&rt)?;
    shelvings::<Plant, _>(&rt)
}

fn stamp_of_a_normal_alarm<P: Alarms + Drop, R: Abort + AllocGlobal>(rt: &R) -> Result<(), Fail> {
    let mut plant = three::<P>(rt.alloc())?;
    same(stamp(&plant, 0), Some(0))?;
    ask(&mut plant, 16, Asked::Value(0, 1))?;
    same(stamp(&plant, 0), Some(1))?;
    ask(&mut plant, 0, Asked::Ack(0))?;
    same(stamp(&plant, 0), Some(1))?;
    ask(&mut plant, 16, Asked::Value(0, 0))?;
    same(stamp(&plant, 0), Some(0))?;
    same(plant.next_stamp(), 2)?;
    Ok(())
}

#[test]
fn an_alarm_that_becomes_normal_has_no_stamp(rt: HostRuntime) -> Result<(), Fail> {
    stamp_of_a_normal_alarm::<PlainPlant, _>(&rt)?;
    stamp_of_a_normal_alarm::<Plant, _>(&rt)
}

fn stamp_of_a_shelving<P: Alarms + Drop, R: Abort + AllocGlobal>(rt: &R) -> Result<(), Fail> {
    let mut plant = three::<P>(rt.alloc())?;
    ask(&mut plant, 0, Asked::Shelve(2, 60))?;
    ask(&mut plant, 0, Asked::Shelve(1, 60))?;
    same(stamp(&plant, 2), Some(1))?;
    same(stamp(&plant, 1), Some(2))?;
    ask(&mut plant, 0, Asked::Oos(2, true))?;
    same(stamp(&plant, 2), Some(1))?;
    ask(&mut plant, 0, Asked::Unshelve(2))?;
    same(stamp(&plant, 2), Some(0))?;
    Ok(())
}

#[test]
fn a_second_flag_leaves_the_stamp_of_a_shelving(rt: HostRuntime) -> Result<(), Fail> {
    stamp_of_a_shelving::<PlainPlant, _>(&rt)?;
    stamp_of_a_shelving::<Plant, _>(&rt)
}
