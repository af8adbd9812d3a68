//! The worked rows.

use crate::all_slots::{all_slots, scripts};
use crate::course::{Left, run_on};
use crate::devices::formatted;
use crate::gate::Gate;
use crate::notes::Notes;
use crate::script::Step;
use alm_common_tests::{moment_of, reading_of, same};
use alm_desk::worked_table;
use alm_disk::{HeldDisk, MemDisk};
use alm_keeper::Keeper;
use alm_rings::SlotReport;
use alm_store::Store;
use alm_threads::Storage;
use alm_types::{Action, AlarmId, Shown};
use std::alloc::Global;
use std::sync::atomic::Ordering;
use std::sync::{Arc, Wait};
use std::test::Fail;
use std::thread::Threads;
use std::time::Clock;

/// One request, and its receipt.
const ONE: SlotReport = SlotReport {
    sent: 1,
    taken: 1,
    released: 1,
    received: 1,
};

/// What is left of a run of scripts.
#[derive(Clone, Copy, Debug, PartialEq, Eq)]
struct Found {
    storage: Storage,
    count: u64,
    /// How many slots have a report, and those of two slots.
    reports: usize,
    slots: [Option<SlotReport>; 2],
    /// How often a step was wrong, and how often a bound was met.
    wrong: u64,
    late: u64,
}

/// A run of steps: what is played, whether the first commit is held until another slot has continued, and the slots whose reports
/// are compared.
#[derive(Clone, Copy)]
struct Row<'a> {
    steps: &'a [(u8, Step)],
    is_held: bool,
    slots: [usize; 2],
}

/// The report of a slot.
fn report_of(slots: &[Option<SlotReport>], slot: usize) -> Option<SlotReport> {
    match slots.get(slot) {
        Some(report) => *report,
        None => None,
    }
}

/// How many slots have a report.
fn reports(slots: &[Option<SlotReport>]) -> usize {
    let mut count = 0usize;
    for slot in slots {
        if slot.is_some() {
            count = count.wrapping_add(1);
        }
    }
    count
}

/// Runs a row's steps over a device.
fn play_over<K: Store, R: Threads + Wait + Clock + Sync>(
    rt: &R,
    alloc: Global,
    disk: K::Device,
    steps: &[(u8, Step)],
    gate: &Arc<Gate, Global>,
    notes: &Arc<Notes, Global>,
) -> Option<Left<K::Device>> {
    let Ok(slots) = all_slots(alloc) else {
        return None;
    };
    let sources = scripts(alloc, &slots, steps, gate, notes).ok()?;
    run_on::<K, _, _>(rt, alloc, disk, slots, gate, sources)
}

/// What is left of it.
fn found_over<K: Store, R: Threads + Wait + Clock + Sync>(
    rt: &R,
    alloc: Global,
    disk: K::Device,
    row: &Row<'_>,
    gate: &Arc<Gate, Global>,
    notes: &Arc<Notes, Global>,
) -> Option<Found> {
    let left = play_over::<K, R>(rt, alloc, disk, row.steps, gate, notes)?;
    let Left {
        storage,
        count,
        slots,
        disk,
        cause: _,
    } = left;
    drop(disk);
    let [one, other] = row.slots;
    Some(Found {
        storage,
        count,
        reports: reports(&slots),
        slots: [report_of(&slots, one), report_of(&slots, other)],
        wrong: notes.wrong.load(Ordering::SeqCst),
        late: gate.late.load(Ordering::SeqCst),
    })
}

/// Runs a row over a device of the worked table.
fn play<R: Threads + Wait + Clock + Sync>(rt: &R, alloc: Global, row: &Row<'_>) -> Option<Found> {
    let notes = Arc::new(alloc, Notes::new(alloc, 0).ok()?).ok()?;
    let gate = Arc::new(alloc, Gate::new(row.is_held)).ok()?;
    let table = worked_table(alloc).ok()?;
    let hold = Arc::try_clone(&gate).ok()?;
    let disk = HeldDisk::new(formatted(alloc, &table)?, hold);
    found_over::<Keeper<HeldDisk<MemDisk, Arc<Gate, Global>>>, R>(
        rt, alloc, disk, row, &gate, &notes,
    )
}

/// All succeeded with `count` actions, and one request of each of the two slots was answered.
fn whole(count: u64) -> Found {
    Found {
        storage: Storage::Whole,
        count,
        reports: 18,
        slots: [Some(ONE), Some(ONE)],
        wrong: 0,
        late: 0,
    }
}

#[test]
fn a_look_shows_what_the_receipt_told(rt: HostRuntime) -> Result<(), Fail> {
    let alarm = AlarmId(0);
    let hot = reading_of(800)?;
    let steps = [
        (16, Step::Send(Action::Value(alarm, hot))),
        (0, Step::Await(alarm, Shown::Unack)),
        (0, Step::Send(Action::Ack(alarm))),
        (0, Step::Learn),
        (0, Step::See(alarm, Shown::Acked)),
        (0, Step::Recall(1, 0, Action::Ack(alarm))),
        (16, Step::Learn),
    ];
    let row = Row {
        steps: &steps,
        is_held: false,
        slots: [0, 16],
    };
    let found = play(&rt, rt.alloc(), &row).ok_or("run")?;
    same(found, whole(2))?;
    Ok(())
}

#[test]
fn others_go_on_while_a_sync_is_held(rt: HostRuntime) -> Result<(), Fail> {
    let second = moment_of(1000)?;
    let steps = [
        (17, Step::SendAndLinger(Action::Clock(second))),
        (0, Step::AwaitGate),
        (0, Step::Send(Action::Ack(AlarmId(0)))),
        (0, Step::See(AlarmId(0), Shown::Normal)),
        (0, Step::Learn),
        (17, Step::Learn),
    ];
    let row = Row {
        steps: &steps,
        is_held: true,
        slots: [0, 17],
    };
    let found = play(&rt, rt.alloc(), &row).ok_or("run")?;
    same(found, whole(1))?;
    Ok(())
}
