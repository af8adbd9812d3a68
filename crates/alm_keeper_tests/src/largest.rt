//! Devices of many alarms and long segments.

use crate::pieces::{stores_next, table_in, zeros};
use crate::steps::open;
use alm_common_tests::same_at;
use alm_disk::Disk;
use alm_keeper::{Keeper, format};
use alm_model::Alarms;
use std::alloc::Global;
use std::test::Fail;

/// A keeper of what was stored on a new device, opened once more.
fn stored_once<D: Disk + Drop>(
    alloc: Global,
    disk: D,
    (rows, areas): (u32, u8),
) -> Result<Keeper<D>, Fail> {
    let Ok(disk) = format(alloc, disk, &table_in(alloc, rows, areas)?) else {
        return Err(Fail::new("not formatted"));
    };
    let mut keeper = open(alloc, disk)?;
    if !stores_next(alloc, &mut keeper)? {
        return Err(Fail::new("not stored"));
    }
    open(alloc, keeper.into_disk())
}

/// What such a device holds: its alarms, its areas, its count and its epoch.
fn held<D: Disk + Drop>(
    alloc: Global,
    disk: D,
    table: (u32, u8),
) -> Result<(usize, usize, u64, u64), Fail> {
    let keeper = stored_once(alloc, disk, table)?;
    let plant = keeper.stored();
    let found = (
        plant.alarms(),
        plant.areas(),
        keeper.count(),
        keeper.epoch(),
    );
    drop(keeper);
    Ok(found)
}

/// Alarms, areas, and how long the device is: one more than 1,000 alarms, and the largest plant.
const DEVICES: [(u32, u8, usize); 2] = [(1_001, 2, 391_905), (16_384, 64, 40_132_841)];

#[test]
fn devices_of_many_alarms_keep_what_is_stored(rt: HostRuntime) -> Result<(), Fail> {
    let alloc = rt.alloc();
    for (rows, areas, size) in DEVICES {
        let found = held(alloc, zeros(alloc, size)?, (rows, areas))?;
        same_at(rows, found, (rows as usize, areas as usize, 1, 1))?;
    }
    Ok(())
}
