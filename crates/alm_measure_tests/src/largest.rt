//! A measure of 16,384 alarms in 64 areas.

use crate::watched::Watched;
use alm_types::{Attr, Kind, Settings, Table};
use std::alloc::{AllocError, Global};
use std::test::Fail;

fn largest_table(alloc: Global) -> Result<Table, Fail> {
    let mut alarms = Vec::with_capacity(alloc, 16_384)?;
    for number in 0..16_384u32 {
        let settings = Settings {
            kind: Kind::High,
            setpoint: 1,
            deadband: 0,
            priority: 1,
            area: (number % 64) as u8,
            latching: false,
            max_shelve: 0,
        };
        alarms.push(Attr::new(settings, b"T", b"")?)?;
    }
    Ok(Table::new(alarms, 64)?)
}

/// Whether a copy of a measure has the annunciation of its last alarm.
fn is_copied(alloc: Global, measure: &mut Watched) -> Result<bool, AllocError> {
    let annunciated = measure.annunciated(16_383);
    let copy = measure.copy(alloc)?;
    let same = copy.window(63) == Some((1, false)) && copy.moments(16_383).len() == 1;
    drop(copy);
    Ok(annunciated && same)
}

#[test]
fn the_largest_measure_is_made_and_copied(rt: HostRuntime) -> Result<(), Fail> {
    let table = largest_table(rt.alloc())?;
    let mut measure = Watched::new(rt.alloc(), &table)?;
    let copied = is_copied(rt.alloc(), &mut measure);
    drop(measure);
    assert!(rt; copied?);
    Ok(())
}
