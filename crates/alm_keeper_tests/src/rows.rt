//! The worked devices: their bytes, and what they open as after a crash.

use crate::choosers::Left;
use crate::steps::{advance, batch, batch_of, begin, copies, fresh, open, refused, stores, worked};
use crate::worked::{SIZE, ack, clock, device, value};
use alm_common_tests::{same, same_at};
use alm_disk::{Crashable, FuseDisk, MemDisk, OnceDisk};
use alm_keeper::{Keeper, OpenFault, Phase, Progress, Refused, open_store};
use alm_types::{Batch, Verdict};
use std::alloc::Global;
use std::test::Fail;

/// Three actions are stored: the clock, and two alarms that come.
fn three(alloc: Global) -> Result<Keeper<MemDisk>, Fail> {
    let first = batch(alloc, 1, &[clock(1000)])?;
    let second = batch(alloc, 2, &[value(0, 800), value(1, 100)])?;
    let mut keeper = fresh(alloc)?;
    let stored = stores(&mut keeper, &first) && stores(&mut keeper, &second);
    worked(keeper, stored)
}

/// The count and the epoch after a crash.
fn reopened(alloc: Global, keeper: Keeper<MemDisk>, left: &mut Left) -> Result<(u64, u64), Fail> {
    let keeper = open(alloc, keeper.into_disk().crash(left))?;
    let found = (keeper.count(), keeper.epoch());
    drop(keeper);
    Ok(found)
}

#[test]
fn the_bytes_of_two_commits(rt: HostRuntime) -> Result<(), Fail> {
    let alloc = rt.alloc();
    let first = batch(alloc, 1, &[clock(1000)])?;
    let second = batch(alloc, 2, &[value(0, 800)])?;
    let mut keeper = fresh(alloc)?;
    let stored = stores(&mut keeper, &first) && stores(&mut keeper, &second);
    let disk = keeper.into_disk();
    assert!(rt; stored);
    let frames = [
        0xa5, 0, 0, 0, 0, 0, 0, 0, 1, 0, 0, 0, 0, 0, 0, 0, 1, 0, 1, 1, 0, 0, 0, 0, 0, 0, 0, 0, 0,
        0, 0, 0, 0, 3, 0xe8, 0xa5, 0, 0, 0, 0, 0, 0, 0, 1, 0, 0, 0, 0, 0, 0, 0, 2, 0, 1, 2, 0, 0,
        0, 0, 0, 0, 0, 0, 0, 0, 0, 0, 0, 3, 0x20, 0,
    ];
    same(disk.bytes().get(10_394..10_465), Some(frames.as_slice()))?;
    Ok(())
}

#[test]
fn a_crash_after_each_call_of_a_commit(rt: HostRuntime) -> Result<(), Fail> {
    let alloc = rt.alloc();
    for (calls, gate, count) in [
        (0, 0x00, 3),
        (1, 0x00, 3),
        (1, 0xA5, 3),
        (1, 0xFF, 3),
        (2, 0xA5, 3),
        (3, 0xA5, 5),
        (3, 0x00, 3),
        (3, 0x5A, 3),
        (4, 0x00, 5),
        (4, 0x5A, 5),
    ] {
        let batch = acks(alloc, 4)?;
        let mut keeper = three(alloc)?;
        let begun = begin(&mut keeper, &batch);
        advance(&mut keeper, calls);
        let found = reopened(alloc, keeper, &mut Left::Every(gate))?;
        same(begun, Some(Ok(())))?;
        same_at((calls, gate), found, (count, 1))?;
    }
    Ok(())
}

/// A batch of the acknowledgements of two alarms, whose first action has a number.
fn acks(alloc: Global, first: u64) -> Result<Batch, Fail> {
    batch(alloc, first, &[ack(0), ack(1)])
}

#[test]
fn a_batch_that_does_not_come_next(rt: HostRuntime) -> Result<(), Fail> {
    let alloc = rt.alloc();
    for (first, answer) in [(3, Err(Refused::Gap)), (5, Err(Refused::Gap)), (4, Ok(()))] {
        let batch = acks(alloc, first)?;
        let mut keeper = three(alloc)?;
        let begun = begin(&mut keeper, &batch);
        drop(keeper);
        same_at(first, begun, Some(answer))?;
    }
    Ok(())
}

/// What is answered to a batch, and to a checkpoint, after some calls of a commit; and what the commit's other calls return, as
/// the four that it has.
fn asked_again(keeper: &mut Keeper<MemDisk>, batch: &Batch, calls: u32) -> (bool, bool, Progress) {
    let _begun = begin(keeper, batch);
    let _made = advance(keeper, calls);
    let begun = begin(keeper, batch);
    let copied = keeper.begin_checkpoint();
    (
        begun == Some(Err(Refused::Working)),
        copied == Err(Refused::Working),
        advance(keeper, 4_u32.saturating_sub(calls)),
    )
}

#[test]
fn a_batch_while_another_is_committed(rt: HostRuntime) -> Result<(), Fail> {
    let alloc = rt.alloc();
    for calls in 0..4 {
        let batch = acks(alloc, 4)?;
        let mut keeper = three(alloc)?;
        let told = asked_again(&mut keeper, &batch, calls);
        let found = (keeper.count(), keeper.phase());
        drop(keeper);
        same_at(calls, told, (true, true, Progress::Done))?;
        same_at(calls, found, (5, Phase::Idle))?;
    }
    Ok(())
}

/// Stores five actions, and asks for a batch that isn't accepted; then what is answered to it and to any other work.
fn torn(keeper: &mut Keeper<MemDisk>, next: &Batch, vain: &Batch) -> (bool, bool, bool) {
    let _begun = begin(keeper, next);
    let _made = advance(keeper, 4);
    let refused = begin(keeper, vain);
    let begun = begin(keeper, vain);
    let copied = keeper.begin_checkpoint();
    (
        refused == Some(Err(Refused::NotAccepted(1))),
        begun == Some(Err(Refused::Stopped)),
        copied == Err(Refused::Stopped),
    )
}

#[test]
fn a_batch_that_is_not_accepted(rt: HostRuntime) -> Result<(), Fail> {
    let alloc = rt.alloc();
    let next = acks(alloc, 4)?;
    let vain = batch_of(alloc, 6, &[refused(5), Verdict::Accepted(ack(3))])?;
    let mut keeper = three(alloc)?;
    let refused = torn(&mut keeper, &next, &vain);
    let found = reopened(alloc, keeper, &mut Left::AsRead)?;
    same(refused, (true, true, true))?;
    same(found, (5, 1))?;
    Ok(())
}

/// A fault in a call of a commit: what the last call returned, whether the keeper is stopped, and the count when its device is
/// opened.
fn faulted(alloc: Global, call: u64) -> Result<(Progress, bool, u64), Fail> {
    let batch = acks(alloc, 4)?;
    let disk = three(alloc)?.into_disk();
    let mut keeper = open(alloc, OnceDisk::new(disk, call.saturating_add(6)))?;
    let _begun = begin(&mut keeper, &batch);
    let last = advance(&mut keeper, 4);
    let stopped = begin(&mut keeper, &batch) == Some(Err(Refused::Stopped));
    let again = open(alloc, keeper.into_disk())?;
    let count = again.count();
    drop(again);
    Ok((last, stopped, count))
}

#[test]
fn a_fault_in_each_call_of_a_commit(rt: HostRuntime) -> Result<(), Fail> {
    let alloc = rt.alloc();
    for (call, count) in [(1, 3), (2, 3), (3, 3), (4, 5)] {
        same_at(call, faulted(alloc, call)?, (Progress::Failed, true, count))?;
    }
    Ok(())
}

#[test]
fn a_device_that_was_not_zero(rt: HostRuntime) -> Result<(), Fail> {
    let alloc = rt.alloc();
    let first = batch(alloc, 1, &[clock(1000)])?;
    let mut keeper = fresh(alloc)?;
    let stored = stores(&mut keeper, &first);
    let found = reopened(alloc, keeper, &mut Left::AsRead)?;
    assert!(rt; stored);
    same(found, (1, 1))?;
    Ok(())
}

/// A commit and a checkpoint are done, and a second checkpoint is begun.
fn second_begun(alloc: Global) -> Result<Keeper<MemDisk>, Fail> {
    let first = batch(alloc, 1, &[clock(1000)])?;
    let mut keeper = fresh(alloc)?;
    let done = stores(&mut keeper, &first) && copies(&mut keeper);
    let begun = keeper.begin_checkpoint().is_ok();
    worked(keeper, done && begun)
}

#[test]
fn a_crash_in_the_first_call_of_a_second_checkpoint(rt: HostRuntime) -> Result<(), Fail> {
    let alloc = rt.alloc();
    for byte in [0xA5, 0x00, 0x5A] {
        let mut keeper = second_begun(alloc)?;
        let phase = keeper.phase();
        let _made = advance(&mut keeper, 1);
        let found = reopened(alloc, keeper, &mut Left::Every(byte))?;
        same(phase, Phase::Copying)?;
        same_at(byte, found, (1, 2))?;
    }
    Ok(())
}

/// Whether a keeper takes 256 actions; then, with one stored, 253 and 254; and 256 after a checkpoint.
fn rooms(keeper: &mut Keeper<MemDisk>, first: &Batch) -> [bool; 4] {
    let new = keeper.fits(256);
    let stored = stores(keeper, first);
    let (just, above) = (keeper.fits(253), keeper.fits(254));
    let copied = copies(keeper);
    [new, stored && just, above, copied && keeper.fits(256)]
}

#[test]
fn the_room_for_a_frame(rt: HostRuntime) -> Result<(), Fail> {
    let alloc = rt.alloc();
    let first = batch(alloc, 1, &[clock(1000)])?;
    let mut keeper = fresh(alloc)?;
    let rooms = rooms(&mut keeper, &first);
    drop(keeper);
    same(rooms, [true, true, false, true])?;
    Ok(())
}

/// Why a device isn't opened, and its bytes' number; `None` if it is opened.
fn unopened(alloc: Global, disk: FuseDisk<MemDisk>) -> Option<(OpenFault, usize)> {
    match open_store(alloc, disk) {
        Ok(keeper) => {
            drop(keeper);
            None
        }
        Err((fault, disk)) => Some((fault, disk.disk.bytes().len())),
    }
}

#[test]
fn a_first_sync_that_fails(rt: HostRuntime) -> Result<(), Fail> {
    let alloc = rt.alloc();
    let found = unopened(alloc, FuseDisk::new(device(alloc, SIZE)?, 0));
    same(found, Some((OpenFault::Disk, SIZE)))?;
    Ok(())
}
