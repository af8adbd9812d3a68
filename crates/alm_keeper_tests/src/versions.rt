//! Devices of versions 01 and 03 in use by this keeper: their bytes before and after their first checkpoint.

use crate::choosers::Left;
use crate::damage::{damaged, opened, put};
use crate::steps::{advance, batch, begin, copies, open, stores, worked};
use crate::worked::{SIZE, clock, device, table, value};
use alm_codec::Version;
use alm_common_tests::same;
use alm_disk::{Crashable, MemDisk};
use alm_keeper::{Keeper, format_as};
use alm_types::{Action, AlarmId, Batch};
use std::alloc::Global;
use std::test::Fail;

/// A device of version 01 that stores CLOCK 1000 and VAL 0 800.
fn first_version(alloc: Global) -> Result<Keeper<MemDisk>, Fail> {
    of_version(alloc, Version::V01)
}

/// One of a version that stores the same.
fn of_version(alloc: Global, version: Version) -> Result<Keeper<MemDisk>, Fail> {
    let first = batch(alloc, 1, &[clock(1000)])?;
    let second = batch(alloc, 2, &[value(0, 800)])?;
    let disk = match format_as(alloc, device(alloc, SIZE)?, &table(alloc)?, version) {
        Ok(disk) => disk,
        Err(_) => return Err(Fail::new("not formatted")),
    };
    let mut keeper = open(alloc, disk)?;
    let stored = stores(&mut keeper, &first) && stores(&mut keeper, &second);
    worked(keeper, stored)
}

/// A batch of PRIO 0 3, action 3.
fn priority(alloc: Global) -> Result<Batch, Fail> {
    batch(alloc, 3, &[Action::SetPriority(AlarmId(0), 3)])
}

#[test]
fn a_checkpoint_before_a_new_kind(rt: HostRuntime) -> Result<(), Fail> {
    let alloc = rt.alloc();
    let next = priority(alloc)?;
    let mut keeper = first_version(alloc)?;
    let before = keeper.takes(&next);
    let copied = copies(&mut keeper);
    let after = keeper.takes(&next);
    let stored = stores(&mut keeper, &next);
    let disk = keeper.into_disk();
    same([before, copied, after, stored], [false, true, true, true])?;
    let name = *b"ALMSRV01";
    same(disk.bytes().get(1..9), Some(name.as_slice()))?;
    let head = [
        0xa5, 0, 0, 0, 0, 0, 0, 0, 2, 2, 0, 0, 0, 0, 0, 0, 2, 0, 0, 0, 0, 0, 0, 0x28, 0x6a,
    ];
    same(disk.bytes().get(14_510..14_535), Some(head.as_slice()))?;
    let frame = [
        0xa5, 0, 0, 0, 0, 0, 0, 0, 2, 0, 0, 0, 0, 0, 0, 0, 3, 0, 1, 9, 0, 0, 0, 0, 0, 0, 0, 0, 0,
        0, 0, 0, 0, 0, 3, 0,
    ];
    same(disk.bytes().get(24_881..24_917), Some(frame.as_slice()))?;
    Ok(())
}

#[test]
fn crashes_of_the_first_checkpoint(rt: HostRuntime) -> Result<(), Fail> {
    let alloc = rt.alloc();
    let next = priority(alloc)?;
    let mut keeper = first_version(alloc)?;
    let copied = copies(&mut keeper);
    let keeper = open(alloc, keeper.into_disk().crash(&mut Left::Every(0)))?;
    let found = (keeper.count(), keeper.epoch());
    let mut keeper = worked(keeper, copied)?;
    let begun = begin(&mut keeper, &next);
    advance(&mut keeper, 4);
    let keeper = open(alloc, keeper.into_disk().crash(&mut Left::Every(0)))?;
    let stored = (keeper.count(), keeper.epoch());
    drop(keeper);
    same(found, (2, 2))?;
    same(begun, Some(Ok(())))?;
    same(stored, (3, 2))?;
    Ok(())
}

#[test]
fn a_new_kind_in_an_old_half(rt: HostRuntime) -> Result<(), Fail> {
    let alloc = rt.alloc();
    let mut disk = first_version(alloc)?.into_disk();
    put(&mut disk, 10_413, 9);
    let (found, disk) = opened(alloc, disk);
    drop(disk);
    same(found, damaged(0, 10_413))?;
    Ok(())
}

#[test]
fn a_checkpoint_of_version_03(rt: HostRuntime) -> Result<(), Fail> {
    let alloc = rt.alloc();
    let next = priority(alloc)?;
    let mut keeper = of_version(alloc, Version::V03)?;
    let before = keeper.takes(&next);
    let copied = copies(&mut keeper);
    let stored = stores(&mut keeper, &next);
    let disk = keeper.into_disk();
    same([before, copied, stored], [true, true, true])?;
    let name = *b"ALMSRV03";
    same(disk.bytes().get(1..9), Some(name.as_slice()))?;
    let head = [
        0xa5, 0, 0, 0, 0, 0, 0, 0, 2, 0xfd, 0, 0, 0, 0, 0, 0, 2, 0x79, 0x62, 0x41, 0x2f, 0xb5,
        0x4b, 0x67, 0xee,
    ];
    same(disk.bytes().get(14_510..14_535), Some(head.as_slice()))?;
    let keeper = open(alloc, disk)?;
    let found = (keeper.count(), keeper.epoch());
    drop(keeper);
    same(found, (3, 2))?;
    Ok(())
}

#[test]
fn a_half_of_version_02_under_version_03(rt: HostRuntime) -> Result<(), Fail> {
    let alloc = rt.alloc();
    let mut disk = of_version(alloc, Version::V03)?.into_disk();
    put(&mut disk, 32, 2);
    let (found, disk) = opened(alloc, disk);
    drop(disk);
    same(found, damaged(0, 32))?;
    Ok(())
}

#[test]
fn a_copy_in_another_version(rt: HostRuntime) -> Result<(), Fail> {
    let alloc = rt.alloc();
    let keeper = of_version(alloc, Version::V02)?;
    let Ok(copy) = keeper.format_copy(alloc, device(alloc, SIZE)?, Version::V03) else {
        return Err(Fail::new("not formatted"));
    };
    drop(keeper);
    let name = *b"ALMSRV03";
    same(copy.bytes().get(1..9), Some(name.as_slice()))?;
    let head = [
        0xa5, 0, 0, 0, 0, 0, 0, 0, 1, 0xfd, 0, 0, 0, 0, 0, 0, 2, 0x79, 0x62, 0x41, 0x2f, 0xe9,
        0x37, 0x52, 0xac,
    ];
    same(copy.bytes().get(23..48), Some(head.as_slice()))?;
    let mut keeper = open(alloc, copy)?;
    let found = (keeper.count(), keeper.epoch());
    let stored = stores(&mut keeper, &priority(alloc)?);
    drop(keeper);
    same(found, (2, 1))?;
    assert!(rt; stored);
    Ok(())
}
