//! A checkpoint that is asked for from outside of a run.

use crate::devices::formatted;
use crate::refusals::told_on;
use alm_common_tests::same;
use alm_desk::worked_table;
use alm_disk::MemDisk;
use alm_keeper::Keeper;
use alm_wake::Healing;
use std::alloc::Global;
use std::sync::Wait;
use std::test::Fail;

/// The epoch of a device that was new, how many actions it stores, and whether a checkpoint is still asked for, after one batch of
/// one action.
fn left<R: Wait>(rt: &R, alloc: Global, healing: &Healing) -> Result<(u64, u64, bool), Fail> {
    let disk = formatted(alloc, &worked_table(alloc)?).ok_or("a device")?;
    match told_on::<Keeper<MemDisk>, R>(rt, alloc, disk, 0, healing) {
        Some((_told, _stopped, keeper)) => {
            let found = (keeper.epoch(), keeper.count(), healing.is_asked());
            drop(keeper);
            Ok(found)
        }
        None => Err(Fail::new("a run")),
    }
}

/// The batch waits for the one piece of the checkpoint, which is done before its commit.
#[test]
fn the_flusher_opens_it(rt: HostRuntime) -> Result<(), Fail> {
    let healing = Healing::new();
    healing.ask();
    same(left(&rt, rt.alloc(), &healing)?, (2, 1, false))?;
    // Noted before its last turn.
    same(healing.stored(), 1)?;
    Ok(())
}

#[test]
fn nobody_asks_for_it(rt: HostRuntime) -> Result<(), Fail> {
    same(left(&rt, rt.alloc(), &Healing::new())?, (1, 1, false))?;
    Ok(())
}
