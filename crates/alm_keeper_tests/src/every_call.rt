//! A fault in each device call of a course, then a crash: what the device opens as.

use crate::choosers::Left;
use crate::course::{CALLS, Stored, is_after, judged, play};
use crate::worked::{SIZE, device};
use alm_common_tests::{holds_at, same};
use alm_disk::{Crashable, FuseDisk, MemDisk, OnceDisk};
use alm_keeper::{OpenFault, open_store};
use std::alloc::Global;
use std::test::Fail;

/// What a device opens as, and whether it holds the plant of exactly those actions. A device that is damaged, or fails, is
/// reported as an epoch that none has.
fn found<D: Crashable + Drop>(alloc: Global, disk: D) -> Result<(Stored, bool), Fail> {
    match open_store(alloc, disk) {
        Ok(keeper) => {
            let same = is_after(alloc, keeper.stored(), keeper.count());
            let stored = (keeper.epoch(), keeper.count());
            drop(keeper);
            Ok((Some(stored), same?))
        }
        Err((OpenFault::Unformatted, _)) => Ok((None, true)),
        Err(_) => Ok((Some((0, 0)), false)),
    }
}

/// The bytes of the device at the last successful sync among the first `calls` calls.
fn synced(alloc: Global, calls: u64) -> Result<Vec<u8>, Fail> {
    let mut last: u64 = 0;
    for sync in [2, 6, 8, 10, 11, 18, 20, 22, 24, 26, 28, 30, 32, 34, 36, 38] {
        if sync <= calls {
            last = sync;
        }
    }
    let (_, disk) = play(alloc, FuseDisk::new(device(alloc, SIZE)?, last))?;
    Ok(disk.disk.bytes().to_vec(alloc)?)
}

/// How many choices there are of what the pending bytes become.
const CHOICES: u32 = 6;

/// What the pending bytes become by a choice, if these were the bytes at the last sync.
fn choice<'a>(number: u32, stood: &'a [u8]) -> Left<'a> {
    match number {
        0 => Left::AsRead,
        1 => Left::Stood(stood),
        2 => Left::Every(0x00),
        3 => Left::Every(0xA5),
        4 => Left::Every(0xFF),
        _ => Left::Turns(0xA5, 0x00),
    }
}

/// Whether a device whose call after a number of calls failed opens after a crash as what the judge says.
fn opens_as_judged<D: Crashable + Drop>(
    alloc: Global,
    wanted: Stored,
    disk: D,
    mut left: Left,
) -> Result<bool, Fail> {
    let (stored, same) = found(alloc, disk.crash(&mut left))?;
    Ok(stored == wanted && same)
}

/// The same of the course over a fuse of `calls` calls.
fn fused(alloc: Global, calls: u64, left: Left) -> Result<bool, Fail> {
    let (done, disk) = play(alloc, FuseDisk::new(device(alloc, SIZE)?, calls))?;
    let wanted = judged(calls, &disk.disk, &left);
    Ok(opens_as_judged(alloc, wanted, disk, left)? && done == (calls == CALLS))
}

/// The same if only the call after `calls` calls fails.
fn faulted(alloc: Global, calls: u64, left: Left) -> Result<bool, Fail> {
    let once = OnceDisk::new(device(alloc, SIZE)?, calls.saturating_add(1));
    let (done, disk) = play(alloc, once)?;
    let wanted = judged(calls, &disk.disk, &left);
    Ok(opens_as_judged(alloc, wanted, disk, left)? && !done)
}

#[test]
fn a_fuse_of_each_length(rt: HostRuntime) -> Result<(), Fail> {
    let alloc = rt.alloc();
    for calls in 2..=CALLS {
        let stood = synced(alloc, calls)?;
        for number in 0..CHOICES {
            let left = choice(number, &stood);
            holds_at((calls, number), fused(alloc, calls, left)?)?;
        }
    }
    Ok(())
}

#[test]
fn one_fault_in_each_call(rt: HostRuntime) -> Result<(), Fail> {
    let alloc = rt.alloc();
    for calls in 2..CALLS {
        let stood = synced(alloc, calls)?;
        for number in 0..CHOICES {
            let left = choice(number, &stood);
            holds_at((calls, number), faulted(alloc, calls, left)?)?;
        }
    }
    Ok(())
}

#[test]
fn the_first_sync_of_a_formatting(rt: HostRuntime) -> Result<(), Fail> {
    let alloc = rt.alloc();
    for calls in 0..2 {
        let (done, disk) = play(alloc, FuseDisk::new(device(alloc, SIZE)?, calls))?;
        assert!(rt; !done);
        let (stored, _) = found(alloc, disk.crash(&mut Left::Every(0x00)))?;
        same(stored, None)?;
    }
    Ok(())
}
