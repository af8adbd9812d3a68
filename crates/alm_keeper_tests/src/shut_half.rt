//! The half that stood before a checkpoint of version 03: it is shut at the checkpoint's end, before anything else is stored.

use crate::choosers::Left;
use crate::damage::{damaged, opened, put};
use crate::steps::{advance, batch, copies, open, stores, worked};
use crate::worked::{SIZE, clock, device, table, value};
use alm_codec::Version;
use alm_common_tests::{same, same_at};
use alm_disk::{Crashable, MemDisk};
use alm_keeper::{Keeper, Progress, format_as};
use std::alloc::Global;
use std::test::Fail;

/// Where the gates of the halves are.
const FIRST: u64 = 23;

const SECOND: u64 = 14_510;

/// A device of version 03 that stores CLOCK 1000.
fn newest(alloc: Global) -> Result<Keeper<MemDisk>, Fail> {
    let first = batch(alloc, 1, &[clock(1000)])?;
    let Ok(disk) = format_as(alloc, device(alloc, SIZE)?, &table(alloc)?, Version::V03) else {
        return Err(Fail::new("not formatted"));
    };
    let mut keeper = open(alloc, disk)?;
    let stored = stores(&mut keeper, &first);
    worked(keeper, stored)
}

/// The gates of both halves.
fn gates(disk: &MemDisk) -> [Option<u8>; 2] {
    [
        disk.bytes().get(FIRST as usize).copied(),
        disk.bytes().get(SECOND as usize).copied(),
    ]
}

#[test]
fn one_gate_is_open_after_a_checkpoint(rt: HostRuntime) -> Result<(), Fail> {
    let alloc = rt.alloc();
    let mut keeper = newest(alloc)?;
    let once = copies(&mut keeper);
    let disk = keeper.into_disk();
    let then = gates(&disk);
    let mut keeper = open(alloc, disk)?;
    let twice = copies(&mut keeper);
    let disk = keeper.into_disk();
    same([once, twice], [true, true])?;
    same(then, [Some(0x5A), Some(0xA5)])?;
    same(gates(&disk), [Some(0xA5), Some(0x5A)])?;
    Ok(())
}

#[test]
fn another_checkpoint_comes_first_if_both_are_open(rt: HostRuntime) -> Result<(), Fail> {
    let alloc = rt.alloc();
    let next = batch(alloc, 2, &[value(0, 800)])?;
    let mut keeper = newest(alloc)?;
    let begun = keeper.begin_checkpoint().is_ok();
    // The run, its sync, the gate, its sync; then the power fails.
    let more = advance(&mut keeper, 4);
    let disk = keeper.into_disk().crash(&mut Left::Every(0));
    let both = gates(&disk);
    let mut keeper = open(alloc, disk)?;
    let found = (keeper.count(), keeper.epoch(), keeper.takes(&next));
    let again = keeper.begin_checkpoint().is_ok() && advance(&mut keeper, 8) == Progress::Done;
    let after = (keeper.epoch(), keeper.takes(&next));
    let stored = stores(&mut keeper, &next);
    let disk = keeper.into_disk();
    same([begun, again, stored], [true, true, true])?;
    same(more, Progress::More)?;
    same(both, [Some(0xA5), Some(0xA5)])?;
    same(found, (1, 2, false))?;
    same(after, (3, true))?;
    same(gates(&disk), [Some(0xA5), Some(0x5A)])?;
    Ok(())
}

#[test]
fn a_damaged_gate_of_either_half_hides_nothing(rt: HostRuntime) -> Result<(), Fail> {
    let alloc = rt.alloc();
    let mut keeper = newest(alloc)?;
    let copied = copies(&mut keeper);
    let stored = stores(&mut keeper, &batch(alloc, 2, &[value(0, 800)])?);
    let mut disk = keeper.into_disk();
    same([copied, stored], [true, true])?;
    for bit in 0..8u8 {
        put(&mut disk, SECOND, 0xA5 ^ (1 << bit));
        let (found, back) = opened(alloc, disk);
        disk = back;
        same_at(bit, found, damaged(2, 23))?;
        put(&mut disk, SECOND, 0xA5);
        put(&mut disk, FIRST, 0x5A ^ (1 << bit));
        let keeper = open(alloc, disk)?;
        let count = keeper.count();
        disk = keeper.into_disk();
        same_at(bit, count, 2)?;
        put(&mut disk, FIRST, 0x5A);
    }
    Ok(())
}
