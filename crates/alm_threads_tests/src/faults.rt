//! Devices that fail.

use crate::all_slots::{all_slots, callers};
use crate::course::{Left, run_on};
use crate::devices::formatted;
use crate::folds::{Accepted, reopened};
use crate::notes::Notes;
use alm_common_tests::{holds_at, same_at, slot_of};
use alm_desk::worked_table;
use alm_disk::{Free, MemDisk, OnceDisk};
use alm_keeper::Keeper;
use alm_threads::{StopCause, Storage};
use alm_types::Slot;
use std::alloc::Global;
use std::sync::atomic::Ordering;
use std::sync::{Arc, Wait};
use std::test::Fail;
use std::thread::Threads;
use std::time::Clock;

/// How many requests each source sends.
const EACH: u64 = 1000;

/// What a run leaves whose device fails a call.
#[derive(Drop)]
struct Found {
    storage: Storage,
    cause: Option<StopCause>,
    /// How many receipts or looks were wrong.
    wrong: u64,
    /// The greatest number that was reported.
    told: u64,
    /// How many actions the device encodes, and whether they are the first that were accepted.
    count: u64,
    is_fold: bool,
}

/// Runs 18 sources, or one of them, over a device that fails its call of a number. `None` if out of memory, no thread can be made
/// or the device isn't opened again.
fn run_failing<R: Threads + Wait + Clock + Sync>(
    rt: &R,
    alloc: Global,
    only: Option<Slot>,
    call: u64,
) -> Option<Found> {
    let Ok(slots) = all_slots(alloc) else {
        return None;
    };
    let table = worked_table(alloc).ok()?;
    let notes = Arc::new(alloc, Notes::new(alloc, 18_000).ok()?).ok()?;
    let sources = callers(alloc, &slots, only, EACH, &notes).ok()?;
    let disk = OnceDisk::new(formatted(alloc, &table)?, call);
    let left = run_on::<Keeper<OnceDisk<MemDisk>>, _, _>(rt, alloc, disk, slots, &Free, sources)?;
    let Left {
        storage,
        cause,
        disk,
        ..
    } = left;
    let accepted = match only {
        Some(slot) => Accepted::Alone(slot),
        None => Accepted::Noted(&notes),
    };
    let (count, is_fold) = reopened::<Keeper<OnceDisk<MemDisk>>>(alloc, disk, &table, accepted)?;
    Some(Found {
        storage,
        cause,
        wrong: notes.wrong.load(Ordering::SeqCst),
        told: notes.told.load(Ordering::SeqCst),
        count,
        is_fold,
    })
}

/// The calls that fail. An opening makes six, and a run more than sixty.
const CALLS: [u64; 9] = [7, 8, 9, 10, 11, 22, 33, 44, 55];

#[test]
fn what_was_answered_is_kept_where_a_call_fails(rt: HostRuntime) -> Result<(), Fail> {
    for call in CALLS {
        let found = run_failing(&rt, rt.alloc(), None, call).ok_or("run")?;
        same_at(
            call,
            (found.storage, found.cause, found.wrong),
            (Storage::Stopped, Some(StopCause::Store), 0),
        )?;
        holds_at(call, found.told <= found.count)?;
    }
    Ok(())
}

#[test]
fn a_prefix_of_what_was_accepted_is_kept_where_a_call_fails(rt: HostRuntime) -> Result<(), Fail> {
    let feed = slot_of(16)?;
    for call in CALLS {
        let found = run_failing(&rt, rt.alloc(), Some(feed), call).ok_or("run")?;
        same_at(
            call,
            (found.storage, found.cause, found.wrong),
            (Storage::Stopped, Some(StopCause::Store), 0),
        )?;
        holds_at(call, found.told <= found.count)?;
        holds_at(call, found.is_fold)?;
    }
    Ok(())
}
