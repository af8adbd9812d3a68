//! Formatting.

use crate::choosers::Left;
use crate::worked::{SIZE, device, table};
use alm_codec::Version;
use alm_common_tests::{same, same_at};
use alm_disk::{Call, Chooser, Crashable, Disk, FuseDisk, MemDisk, OnceDisk};
use alm_keeper::{FormatFault, OpenFault, format, format_as, open_store};
use std::alloc::Global;
use std::test::Fail;

/// What a device opens as: its count, or why it isn't opened.
fn opens<D: Crashable + Drop, C: Chooser>(
    alloc: Global,
    disk: D,
    chooser: &mut C,
) -> Result<u64, OpenFault> {
    match open_store(alloc, disk.crash(chooser)) {
        Ok(keeper) => {
            let count = keeper.count();
            drop(keeper);
            Ok(count)
        }
        Err((fault, _)) => Err(fault),
    }
}

/// The epoch of a device, or why it isn't opened.
fn epoch<D: Disk + Drop>(alloc: Global, disk: D) -> Result<u64, OpenFault> {
    match open_store(alloc, disk) {
        Ok(keeper) => {
            let epoch = keeper.epoch();
            drop(keeper);
            Ok(epoch)
        }
        Err((fault, _)) => Err(fault),
    }
}

/// A formatting over a fuse of `calls` calls: what failed, and the device.
fn burnt(alloc: Global, calls: u64) -> Result<(Option<FormatFault>, FuseDisk<MemDisk>), Fail> {
    let fuse = FuseDisk::new(device(alloc, SIZE)?, calls);
    match format(alloc, fuse, &table(alloc)?) {
        Ok(disk) => Ok((None, disk)),
        Err((fault, disk)) => Ok((Some(fault), disk)),
    }
}

/// A formatting whose call of this number fails.
fn faulted(alloc: Global, call: u64) -> Result<(Option<FormatFault>, OnceDisk<MemDisk>), Fail> {
    let once = OnceDisk::new(device(alloc, SIZE)?, call);
    match format(alloc, once, &table(alloc)?) {
        Ok(disk) => Ok((None, disk)),
        Err((fault, disk)) => Ok((Some(fault), disk)),
    }
}

#[test]
fn a_fuse_of_fewer_than_ten_calls(rt: HostRuntime) -> Result<(), Fail> {
    let alloc = rt.alloc();
    for calls in 0..10 {
        let (fault, disk) = burnt(alloc, calls)?;
        same_at(calls, fault, Some(FormatFault::Disk))?;
        same(disk.disk.calls().len() as u64, calls)?;
        if calls >= 2 {
            let read = opens(alloc, disk, &mut Left::AsRead);
            let wanted = if calls == 9 {
                Ok(0)
            } else {
                Err(OpenFault::Unformatted)
            };
            same_at(calls, read, wanted)?;
        }
        for byte in [0x00, 0x5A, 0xA5, 0xFF] {
            let (_, disk) = burnt(alloc, calls)?;
            let left = opens(alloc, disk, &mut Left::Every(byte));
            if calls >= 8 && byte == 0xA5 {
                same_at(calls, left, Ok(0))?;
            } else if calls >= 2 {
                same_at((calls, byte), left, Err(OpenFault::Unformatted))?;
            }
        }
    }
    Ok(())
}

#[test]
fn a_fuse_of_ten_calls(rt: HostRuntime) -> Result<(), Fail> {
    let alloc = rt.alloc();
    let (fault, disk) = burnt(alloc, 10)?;
    same(fault, None)?;
    same(opens(alloc, disk, &mut Left::Every(0x5A)), Ok(0))?;
    Ok(())
}

#[test]
fn one_fault(rt: HostRuntime) -> Result<(), Fail> {
    let alloc = rt.alloc();
    for call in 1..=10 {
        let (fault, disk) = faulted(alloc, call)?;
        same_at(call, fault, Some(FormatFault::Disk))?;
        same(disk.disk.calls().len() as u64, call - 1)?;
        if call >= 3 {
            let left = opens(alloc, disk, &mut Left::Every(0x00));
            same_at(call, left, Err(OpenFault::Unformatted))?;
        }
    }
    Ok(())
}

#[test]
fn the_calls_and_the_bytes(rt: HostRuntime) -> Result<(), Fail> {
    let alloc = rt.alloc();
    let Ok(disk) = format(alloc, device(alloc, SIZE)?, &table(alloc)?) else {
        return Err(Fail::new("not formatted"));
    };
    let calls = [
        Call::Write { at: 0, length: 1 },
        Call::Sync,
        Call::Write { at: 1, length: 22 },
        Call::Write {
            at: 23,
            length: 10_372,
        },
        Call::Write {
            at: 14_510,
            length: 1,
        },
        Call::Sync,
        Call::Write { at: 23, length: 1 },
        Call::Sync,
        Call::Write { at: 0, length: 1 },
        Call::Sync,
    ];
    same(disk.calls(), calls.as_slice())?;
    let start = [
        0xa5, 0x41, 0x4c, 0x4d, 0x53, 0x52, 0x56, 0x30, 0x32, 0, 0, 0, 4, 0, 2, 0, 0, 0, 0, 0, 0,
        0x10, 0x14, 0xa5, 0, 0, 0, 0, 0, 0, 0, 1, 2, 0, 0, 0, 0, 0, 0, 0, 0, 0, 0, 0, 0, 0, 0x28,
        0x6a,
    ];
    same(disk.bytes().get(..48), Some(start.as_slice()))?;
    // The segment's first gate is closed, and all after it is as before; so is the other half, except for its gate.
    same(disk.bytes().get(10_394..10_396), Some([0, 0xa5].as_slice()))?;
    same(
        disk.bytes().get(14_509..14_512),
        Some([0xa5, 0, 0xa5].as_slice()),
    )?;
    same(epoch(alloc, disk), Ok(1))?;
    Ok(())
}

#[test]
fn the_bytes_of_version_01(rt: HostRuntime) -> Result<(), Fail> {
    let alloc = rt.alloc();
    let Ok(disk) = format_as(alloc, device(alloc, SIZE)?, &table(alloc)?, Version::V01) else {
        return Err(Fail::new("not formatted"));
    };
    let start = [
        0xa5, 0x41, 0x4c, 0x4d, 0x53, 0x52, 0x56, 0x30, 0x31, 0, 0, 0, 4, 0, 2, 0, 0, 0, 0, 0, 0,
        0x10, 0x14, 0xa5, 0, 0, 0, 0, 0, 0, 0, 1, 0, 0, 0, 0, 0, 0, 0, 0, 0, 0, 0, 0, 0, 0, 0x28,
        0x6a,
    ];
    same(disk.bytes().get(..48), Some(start.as_slice()))?;
    same(epoch(alloc, disk), Ok(1))?;
    Ok(())
}

#[test]
fn the_bytes_of_version_03(rt: HostRuntime) -> Result<(), Fail> {
    let alloc = rt.alloc();
    let Ok(disk) = format_as(alloc, device(alloc, SIZE)?, &table(alloc)?, Version::V03) else {
        return Err(Fail::new("not formatted"));
    };
    let start = [
        0xa5, 0x41, 0x4c, 0x4d, 0x53, 0x52, 0x56, 0x30, 0x33, 0, 0, 0, 4, 0, 2, 0, 0, 0, 0, 0, 0,
        0x10, 0x14, 0xa5, 0, 0, 0, 0, 0, 0, 0, 1, 0xfd, 0, 0, 0, 0, 0, 0, 0, 0xa0, 0x9e, 0xb7,
        0xcb, 0xd0, 0xa2, 0xc8, 0xdd,
    ];
    same(disk.bytes().get(..48), Some(start.as_slice()))?;
    // The gate of the first frame, and that of the second half.
    same(disk.bytes().get(10_394..10_395), Some([0x5a].as_slice()))?;
    same(disk.bytes().get(14_510..14_511), Some([0x5a].as_slice()))?;
    same(epoch(alloc, disk), Ok(1))?;
    Ok(())
}

#[test]
fn a_device_that_is_too_small(rt: HostRuntime) -> Result<(), Fail> {
    let alloc = rt.alloc();
    match format(alloc, device(alloc, SIZE - 1)?, &table(alloc)?) {
        Ok(_) => return Err(Fail::new("formatted")),
        Err((fault, disk)) => {
            same(fault, FormatFault::TooSmall)?;
            assert!(rt; disk.calls().is_empty());
            same(disk.bytes().len(), SIZE - 1)?;
            assert!(rt; disk.bytes().iter().all(|byte| *byte == 0xA5));
        }
    }
    Ok(())
}
