//! The power fails while the threads run.

use crate::all_slots::{all_slots, callers};
use crate::course::{Left, run_on};
use crate::devices::formatted;
use crate::folds::{Accepted, reopened};
use crate::notes::Notes;
use alm_common_tests::{holds_at, same_at, slot_of};
use alm_desk::worked_table;
use alm_disk::{Chooser, Crashable, Free, FuseDisk, MemDisk};
use alm_keeper::Keeper;
use alm_types::Slot;
use std::alloc::Global;
use std::sync::atomic::Ordering;
use std::sync::{Arc, Wait};
use std::test::Fail;
use std::thread::Threads;
use std::time::Clock;

/// How many requests each source sends.
const EACH: u64 = 40;

/// How many runs there are.
const RUNS: u64 = 200;

/// An opening makes six calls, and the first run's first commit ends with the tenth.
const FIRST: u64 = 6;

/// Leaves of each pending byte what reads, its opposite or a drawn one.
#[derive(Drop)]
struct Drawn {
    state: u64,
}

impl Chooser for Drawn {
    ghost names = { λ _ _ _ _. Unit {0} };

    fn choose(&mut self, at: u64, read: u8) -> u8 {
        self.state = self
            .state
            .wrapping_mul(0x5851_F42D_4C95_7F2D)
            .wrapping_add(at)
            .wrapping_add(0x1405_7B7E_F767_814F);
        let drawn = self.state >> 40;
        match drawn % 4 {
            0 | 1 => read,
            2 => !read,
            _ => (drawn / 256 % 256) as u8,
        }
    }
}

/// What the device encodes after a power failure, and what was reported before it.
#[derive(Clone, Copy, Debug)]
struct Found {
    wrong: u64,
    told: u64,
    count: u64,
    // Whether it is known which actions these are. Of a request that has no reply only its slot knows.
    are_known: bool,
    is_fold: bool,
}

/// Runs 18 sources, or one of them, over a device that serves a number of calls: then its power fails, which leaves drawn bytes.
/// `None` if out of memory, no thread can be made, or the device isn't opened again.
fn run_until<R: Threads + Wait + Clock + Sync>(
    rt: &R,
    alloc: Global,
    only: Option<Slot>,
    calls: u64,
) -> Option<Found> {
    let Ok(slots) = all_slots(alloc) else {
        return None;
    };
    let table = worked_table(alloc).ok()?;
    let notes = Arc::new(alloc, Notes::new(alloc, 1_000).ok()?).ok()?;
    let sources = callers(alloc, &slots, only, EACH, &notes).ok()?;
    let disk = FuseDisk::new(formatted(alloc, &table)?, calls);
    let Left { disk, .. } = run_on::<Keeper<FuseDisk<MemDisk>>, _, _>(
        rt, alloc, disk, slots, &Free, sources,
    )?;
    let accepted = match only {
        Some(slot) => Accepted::Alone(slot),
        None => Accepted::Noted(&notes),
    };
    let left = disk.crash(&mut Drawn { state: calls });
    let (count, is_fold) = reopened::<Keeper<FuseDisk<MemDisk>>>(alloc, left, &table, accepted)?;
    Some(Found {
        wrong: notes.wrong.load(Ordering::SeqCst),
        told: notes.told.load(Ordering::SeqCst),
        count,
        are_known: only.is_some() || notes.are_noted_up_to(count),
        is_fold,
    })
}

/// After how many calls the power fails in a run.
fn calls_of(run: u64) -> u64 {
    FIRST + run.wrapping_mul(0x9E37_79B9_7F4A_7C15) % 97
}

#[test]
fn what_was_told_is_there_after_a_power_failure(rt: HostRuntime) -> Result<(), Fail> {
    let mut judged = 0u64;
    for run in 0..RUNS {
        let calls = calls_of(run);
        let found = run_until(&rt, rt.alloc(), None, calls).ok_or("run")?;
        same_at(calls, found.wrong, 0)?;
        holds_at((calls, found.count, found.told), found.told <= found.count)?;
        if found.are_known {
            holds_at(calls, found.is_fold)?;
            judged = judged.wrapping_add(1);
        }
    }
    holds_at(judged, judged >= RUNS / 4)?;
    Ok(())
}

#[test]
fn a_prefix_of_what_was_accepted_stands_after_a_power_failure(rt: HostRuntime) -> Result<(), Fail> {
    let feed = slot_of(16)?;
    for run in 0..RUNS {
        let calls = calls_of(run);
        let found = run_until(&rt, rt.alloc(), Some(feed), calls).ok_or("run")?;
        holds_at((calls, found.count, found.told), found.told <= found.count)?;
        holds_at(calls, found.is_fold)?;
    }
    Ok(())
}
