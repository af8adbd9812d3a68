//! Devices with a changed byte.

ghost use Rattle.std.specs.Prelude.{◌<◌};

use crate::steps::{batch, fresh, stores, worked};
use crate::worked::{clock, value};
use alm_checkpoint::{DeviceFault, RestoreFault, recover};
use alm_common_tests::{same, same_at};
use alm_disk::{Disk, MemDisk};
use alm_keeper::{OpenFault, open_store};
use alm_model::Alarms;
use alm_plant::Plant;
use std::alloc::Global;
use std::ops::Range;
use std::test::Fail;

/// How many calls the devices of this module note.
const CALLS: usize = 2_000_000;

/// The bytes of a device with two commits: the clock, and an alarm that comes. Half 1 is all zero.
fn stored(alloc: Global) -> Result<Vec<u8>, Fail> {
    let (first, second) = (
        batch(alloc, 1, &[clock(1000)])?,
        batch(alloc, 2, &[value(0, 800)])?,
    );
    let mut keeper = fresh(alloc)?;
    let stored = stores(&mut keeper, &first) && stores(&mut keeper, &second);
    let disk = worked(keeper.into_disk(), stored)?;
    let mut bytes = Vec::new(alloc);
    for (at, byte) in disk.bytes().iter().enumerate() {
        bytes.push(if at < 14_510 { *byte } else { 0 })?;
    }
    Ok(bytes)
}

/// Puts a byte on a device, and syncs.
pub fn put(disk: &mut MemDisk, at: u64, byte: u8) {
    if at < disk.size() {
        let _put = disk.write_at(at, &[byte]);
        let _synced = disk.sync();
    }
}

/// The count and the epoch of a device, or why it isn't opened; and the device.
pub fn opened(alloc: Global, disk: MemDisk) -> (Result<(u64, u64), OpenFault>, MemDisk) {
    match open_store(alloc, disk) {
        Ok(keeper) => {
            let found = (keeper.count(), keeper.epoch());
            (Ok(found), keeper.into_disk())
        }
        Err((fault, disk)) => (Err(fault), disk),
    }
}

/// A field that is damaged.
pub fn damaged(half: u8, at: u64) -> Result<(u64, u64), OpenFault> {
    Err(OpenFault::Damaged { half, at })
}

#[test]
fn one_changed_byte(rt: HostRuntime) -> Result<(), Fail> {
    let alloc = rt.alloc();
    let mut disk = MemDisk::new(alloc, stored(alloc)?, CALLS)?;
    for (at, byte, wanted) in [
        (0, 0x00, Err(OpenFault::Unformatted)),
        (1, b'B', damaged(2, 1)),
        (9, 0x01, damaged(2, 9)),
        (23, 0x00, damaged(2, 23)),
        (47, 0x00, damaged(0, 40)),
        (10_394, 0x00, Ok((0, 1))),
        (10_402, 0x02, damaged(0, 10_395)),
        (10_410, 0x02, damaged(0, 10_403)),
        (10_413, 0x03, damaged(0, 10_413)),
        (14_510, 0xA5, Ok((2, 1))),
    ] {
        let old = disk.bytes().get(at as usize).copied().unwrap_or(0);
        put(&mut disk, at, byte);
        let (found, back) = opened(alloc, disk);
        disk = back;
        same_at((at, byte), found, wanted)?;
        put(&mut disk, at, old);
    }
    Ok(())
}

#[test]
fn two_changed_bytes(rt: HostRuntime) -> Result<(), Fail> {
    let alloc = rt.alloc();
    for (first, second, wanted) in [
        ((10_411, 0), (10_412, 0), damaged(0, 10_411)),
        ((14_510, 0xA5), (14_518, 0x01), damaged(1, 14_511)),
    ] {
        let mut disk = MemDisk::new(alloc, stored(alloc)?, CALLS)?;
        put(&mut disk, first.0, first.1);
        put(&mut disk, second.0, second.1);
        let (found, _) = opened(alloc, disk);
        same(found, wanted)?;
    }
    Ok(())
}

/// What recovery of its bytes alone reports of a device: the count and the epoch, or their fault.
fn recovered(alloc: Global, bytes: &[u8]) -> Result<(u64, u64), OpenFault> {
    match recover::<Plant>(alloc, bytes) {
        Ok(found) => Ok((found.plant.count(), found.epoch)),
        Err(RestoreFault::OutOfMemory) => Err(OpenFault::OutOfMemory),
        Err(RestoreFault::Damaged(DeviceFault::Unformatted)) => Err(OpenFault::Unformatted),
        Err(RestoreFault::Damaged(DeviceFault::Damaged { half, at })) => {
            Err(OpenFault::Damaged { half, at })
        }
    }
}

/// Sets each byte at these places, `step` apart, in turn to 00, 01, A5 and FF. The last place at which opening reports something
/// that recovery doesn't.
fn dispute(alloc: Global, places: Range<u64>, step: usize) -> Result<Option<u64>, Fail>
    requires { 0 < step }
{
    let mut disk = MemDisk::new(alloc, stored(alloc)?, CALLS)?;
    let mut last = None;
    for at in places.step_by(step) {
        let old = disk.bytes().get(at as usize).copied().unwrap_or(0);
        for byte in [0x00, 0x01, 0xA5, 0xFF] {
            put(&mut disk, at, byte);
            let wanted = recovered(alloc, disk.bytes());
            let (found, back) = opened(alloc, disk);
            disk = back;
            if found != wanted {
                last = Some(at);
            }
        }
        put(&mut disk, at, old);
    }
    Ok(last)
}

#[test]
fn every_byte_of_header_head_and_alarms(rt: HostRuntime) -> Result<(), Fail> {
    let alloc = rt.alloc();
    for (from, to) in [(0, 128), (9_666, 10_394), (14_510, 14_535)] {
        same(dispute(alloc, from..to, 1)?, None)?;
    }
    Ok(())
}

#[test]
fn every_byte_of_the_windows(rt: HostRuntime) -> Result<(), Fail> {
    same(dispute(rt.alloc(), 128..9_666, 1)?, None)?;
    Ok(())
}

#[test]
fn every_byte_of_the_segment(rt: HostRuntime) -> Result<(), Fail> {
    same(dispute(rt.alloc(), 10_394..14_510, 1)?, None)?;
    Ok(())
}

// No reader reads a half that isn't open.
#[test]
fn every_eleventh_byte_behind(rt: HostRuntime) -> Result<(), Fail> {
    same(dispute(rt.alloc(), 14_535..28_997, 11)?, None)?;
    Ok(())
}
