//! Eighteen sources together.

use crate::all_slots::{all_slots, callers};
use crate::course::{Left, run_on};
use crate::devices::formatted;
use crate::folds::{Accepted, reopened};
use crate::notes::Notes;
use alm_common_tests::{holds_at, same};
use alm_desk::worked_table;
use alm_disk::{Free, MemDisk};
use alm_keeper::Keeper;
use alm_rings::SlotReport;
use alm_store::Store;
use alm_threads::Storage;
use alm_types::Table;
use std::alloc::Global;
use std::sync::atomic::Ordering;
use std::sync::{Arc, Wait};
use std::test::Fail;
use std::thread::Threads;
use std::time::Clock;

/// How many requests each source sends.
const EACH: u64 = 20_000;

/// What went through each slot.
const ALL: SlotReport = SlotReport {
    sent: EACH,
    taken: EACH,
    released: EACH,
    received: EACH,
};

/// What is left of a run: the storage, how many actions are stored, whether each slot has had all, and whether the device encodes
/// what was noted.
#[derive(Clone, Copy, Debug)]
struct Found {
    storage: Storage,
    count: u64,
    is_answered: bool,
    reopened: Option<(u64, bool)>,
}

/// Whether all 18 slots have had all.
fn is_answered(slots: &[Option<SlotReport>]) -> bool {
    let mut all = slots.len() == 18;
    for slot in slots {
        all = all && *slot == Some(ALL);
    }
    all
}

/// Runs a caller at each slot over a device.
fn run_callers<K: Store, R: Threads + Wait + Clock + Sync>(
    rt: &R,
    alloc: Global,
    disk: K::Device,
    notes: &Arc<Notes, Global>,
) -> Option<Left<K::Device>> {
    let Ok(slots) = all_slots(alloc) else {
        return None;
    };
    let sources = callers(alloc, &slots, None, EACH, notes).ok()?;
    run_on::<K, _, _>(rt, alloc, disk, slots, &Free, sources)
}

/// Runs them, and opens the device again.
fn run_over<K: Store, R: Threads + Wait + Clock + Sync>(
    rt: &R,
    alloc: Global,
    disk: K::Device,
    table: &Table,
    notes: &Arc<Notes, Global>,
) -> Option<Found> {
    let Left {
        storage,
        count,
        slots,
        disk,
        cause: _,
    } = run_callers::<K, R>(rt, alloc, disk, notes)?;
    Some(Found {
        storage,
        count,
        is_answered: is_answered(&slots),
        reopened: reopened::<K>(alloc, disk, table, Accepted::Noted(notes)),
    })
}

/// The same over a device of the worked table.
fn run_all<R: Threads + Wait + Clock + Sync>(
    rt: &R,
    alloc: Global,
    notes: &Arc<Notes, Global>,
) -> Option<Found> {
    let table = worked_table(alloc).ok()?;
    let disk = formatted(alloc, &table)?;
    run_over::<Keeper<MemDisk>, R>(rt, alloc, disk, &table, notes)
}

#[test]
fn eighteen_sources_are_answered_in_order_and_all_is_kept(rt: HostRuntime) -> Result<(), Fail> {
    let notes = Arc::new(rt.alloc(), Notes::new(rt.alloc(), 360_000)?)?;
    let found = run_all(&rt, rt.alloc(), &notes).ok_or("run")?;
    let wrong = notes.wrong.load(Ordering::SeqCst);
    let unseen = notes.unseen.load(Ordering::SeqCst);
    let shown = notes.shown.load(Ordering::SeqCst);
    drop(notes);
    same(found.storage, Storage::Whole)?;
    same((wrong, unseen, shown), (0, 0, 360_000))?;
    assert!(rt; found.is_answered);
    holds_at(found.count, found.count > EACH)?;
    same(found.reopened, Some((found.count, true)))?;
    Ok(())
}
