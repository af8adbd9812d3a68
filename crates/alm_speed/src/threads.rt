//! Runs of the server's threads over a file: 18 slots that ask with one request out and with 64, and looks during the requests of
//! another slot. A sum is how many requests were answered or looks shown.
//!
//! `bench/threads/run.sh` compares it with plain Rust threads, on a file whose syncs take 0.2 ms.
ghost use Rattle.std.specs.Prelude.{◌≡◌, ◌<◌, ◌^◌, length};
ghost use Rattle.alm_rings.specs.Placed.{AreApart};

use crate::report::report;
use alm_disk::Free;
use alm_file::{FileDisk, Unknown};
use alm_keeper::{Keeper, format};
use alm_threads::Storage;
use alm_threads_tests::all_slots::{all_slots, askers, lookers};
use alm_threads_tests::course::{Left, run_on};
use alm_threads_tests::notes::Notes;
use alm_threads_tests::player::Player;
use alm_types::{Attr, Kind, Settings, Slot, Table};
use anyhow::{Result, anyhow};
use std::alloc::Global;
use std::fs::{File, Files};
use std::rt::Clock;
use std::sync::atomic::Ordering;
use std::sync::{Arc, Wait};
use std::thread::Threads;
use std::time::Instant;

/// The bytes of the device, with segments of 16 MiB.
const DEVICE: u64 = 41_943_040;

/// A table with an alarm for each slot.
fn table(alloc: Global) -> Result<Table> {
    let settings = Settings {
        kind: Kind::High,
        setpoint: 800,
        deadband: 10,
        priority: 1,
        area: 0,
        latching: false,
        max_shelve: 0,
    };
    let mut attrs = Vec::with_capacity(alloc, 18)?;
    for _alarm in 0..18 {
        attrs.push(Attr::new(settings, b"T", b"").map_err(|_| anyhow!("attributes"))?)?;
    }
    Table::new(attrs, 1).map_err(|_| anyhow!("table"))
}

/// A run over a formatted file: how many actions are stored at its end.
fn stored_after<R: Threads + Wait + Clock + Sync>(
    rt: &R,
    alloc: Global,
    disk: FileDisk<Unknown>,
    slots: Vec<Slot>,
    sources: Vec<Player>,
) -> Option<u64>
    requires some { (0 < length slots.items) × (length slots.items < 2 ^ 32) }
    requires apart { AreApart (λ s. s) slots.items }
    requires sources { length sources.items ≡ length slots.items }
{
    let left = run_on::<Keeper<FileDisk<Unknown>>, _, _>(rt, alloc, disk, slots, &Free, sources)?;
    let Left { storage, count, .. } = left;
    (storage == Storage::Whole).then_some(count)
}

/// 18 slots make a number of requests each, with a number of them unanswered: how many actions are stored.
fn ask<R: Threads + Wait + Clock + Sync>(
    rt: &R,
    alloc: Global,
    disk: FileDisk<Unknown>,
    out: u64,
    each: u64,
) -> Option<u64> {
    let notes = Arc::new(alloc, Notes::new(alloc, 0).ok()?).ok()?;
    let slots = all_slots(alloc).ok()?;
    let sources = askers(alloc, &slots, out, each, &notes).ok()?;
    stored_after(rt, alloc, disk, slots, sources)
}

/// A number of consoles make some hundreds of looks each while the feed asks: how many looks were shown.
fn look<R: Threads + Wait + Clock + Sync>(
    rt: &R,
    alloc: Global,
    disk: FileDisk<Unknown>,
    readers: u8,
    hundreds: u64,
) -> Option<u64> {
    let notes = Arc::new(alloc, Notes::new(alloc, 0).ok()?).ok()?;
    let slots = all_slots(alloc).ok()?;
    let sources = lookers(alloc, &slots, readers, hundreds, &notes).ok()?;
    let _stored = stored_after(rt, alloc, disk, slots, sources)?;
    Some(notes.shown.load(Ordering::SeqCst))
}

/// What is timed.
#[derive(Clone, Copy, Debug)]
enum Course {
    /// How many requests are unanswered, and how many each slot sends.
    Ask { out: u64, each: u64 },
    /// A number of consoles, and the hundreds of looks of each.
    Look { readers: u8, hundreds: u64 },
}

const COURSES: [(&str, Course); 4] = [
    ("one_out", Course::Ask { out: 1, each: 4000 }),
    (
        "64_out",
        Course::Ask {
            out: 64,
            each: 40_000,
        },
    ),
    (
        "looks_1",
        Course::Look {
            readers: 1,
            hundreds: 100_000,
        },
    ),
    (
        "looks_8",
        Course::Look {
            readers: 8,
            hundreds: 25_000,
        },
    ),
];

fn time_course(
    rt: &(impl Print + Eprint + Clock + Files<File = File> + Threads + Wait + Sync + AllocGlobal),
    alloc: Global,
    path: &str,
    name: &str,
    course: Course,
) -> Result<()> {
    let disk = FileDisk::make(rt, path, DEVICE, DEVICE, Unknown)?;
    let disk = format(alloc, disk, &table(alloc)?).map_err(|_| anyhow!("format"))?;
    let start = Instant::now(rt)?;
    let done = match course {
        Course::Ask { out, each } => ask(rt, alloc, disk, out, each),
        Course::Look { readers, hundreds } => look(rt, alloc, disk, readers, hundreds),
    };
    let done = done.ok_or_else(|| anyhow!("a run"))?;
    let nanos = start.elapsed(rt)?.as_nanos();
    report(rt, name, done, nanos)
}

/// Each course over a new device in this file.
pub fn run(
    rt: &(impl Print + Eprint + Clock + Files<File = File> + Threads + Wait + Sync + AllocGlobal),
    alloc: Global,
    path: &str,
) -> Result<()> {
    for (name, course) in COURSES {
        time_course(rt, alloc, path, name, course)?;
    }
    Ok(())
}
