//! A keeper: opening what was formatted, checkpoints, commits of 256 actions until a segment of 16 MiB is full, and opening what
//! they leave. A sum is how often it was done, or how many actions are in an opened device.
//!
//! With the path of a file it is a device of the largest table, and is left with a full segment; else a small one in memory.
//! `bench/keeper/run.sh` compares it with plain Rust that makes the same calls and reads the same bytes. A server opens its
//! device once. That is timed by a process that does nothing else, since earlier openings leave freed memory that may or may not
//! be returned to the system.
mod stored;

use crate::report::report;
use alm_disk::{Disk, MemDisk};
use alm_file::{FileDisk, Unknown};
use alm_keeper::{Keeper, format, open_store};
use alm_types::{Batch, Table};
use anyhow::{Result, anyhow};
use std::alloc::Global;
use std::fs::{File, Files};
use std::rt::Clock;
use std::time::Instant;
use stored::{begin_copy, commit_all, end_copy, table};

/// What is done to a device: how many alarms it has, and how many checkpoints and commits are made.
#[derive(Clone, Copy)]
struct Course {
    alarms: u32,
    checkpoints: u32,
    commits: u32,
}

const SMALL: Course = Course {
    alarms: 256,
    checkpoints: 2,
    commits: 4,
};

const LARGEST: Course = Course {
    alarms: 16_384,
    checkpoints: 20,
    commits: 4077,
};

/// The bytes of a device for 256 alarms.
const SMALL_SIZE: usize = 1_048_576;

/// The bytes of a device for 16,384 alarms in 64 areas, with segments of 16 MiB.
const LARGEST_SIZE: u64 = 40_132_841;

/// How many calls the small course makes, at most.
const CALLS: usize = 128;

/// Checkpoints, and apart from their calls how long their bodies take to make.
fn time_checkpoints<D: Disk + Drop>(
    rt: &(impl Print + Eprint + Clock),
    keeper: &mut Keeper<D>,
    course: Course,
) -> Result<()> {
    let mut bodies = 0u128;
    let mut calls = 0u128;
    let mut begun = 0u32;
    let mut done = 0u32;
    for _checkpoint in 0..course.checkpoints {
        let start = Instant::now(rt)?;
        begun = begun.wrapping_add(begin_copy(keeper));
        bodies = bodies.saturating_add(start.elapsed(rt)?.as_nanos());
        let start = Instant::now(rt)?;
        done = done.wrapping_add(end_copy(keeper));
        calls = calls.saturating_add(start.elapsed(rt)?.as_nanos());
    }
    report(rt, "body", u64::from(begun), bodies)?;
    report(
        rt,
        "checkpoint",
        u64::from(done),
        bodies.saturating_add(calls),
    )
}

fn time_commits<D: Disk + Drop>(
    rt: &(impl Print + Eprint + Clock),
    keeper: &mut Keeper<D>,
    batch: &mut Batch,
    course: Course,
) -> Result<()> {
    let start = Instant::now(rt)?;
    let done = commit_all(keeper, batch, course.alarms, course.commits);
    let took = start.elapsed(rt)?.as_nanos();
    report(rt, "commit", u64::from(done), took)
}

/// Opens a device, and returns it with the count of the plant that it encodes.
fn open_and_close<D: Disk + Drop>(alloc: Global, disk: D) -> (D, u64) {
    match open_store(alloc, disk) {
        Ok(keeper) => {
            let count = keeper.count();
            (keeper.into_disk(), count)
        }
        Err((_fault, disk)) => (disk, 0),
    }
}

/// Opens a device, and returns it.
fn time_opening<D: Disk + Drop>(
    rt: &(impl Print + Eprint + Clock),
    alloc: Global,
    name: &str,
    disk: D,
) -> Result<D> {
    let start = Instant::now(rt)?;
    let (disk, count) = open_and_close(alloc, disk);
    let took = start.elapsed(rt)?.as_nanos();
    report(rt, name, count, took)?;
    Ok(disk)
}

/// The works of a keeper of this device.
fn work<D: Disk + Drop>(
    rt: &(impl Print + Eprint + Clock),
    keeper: &mut Keeper<D>,
    batch: &mut Batch,
    course: Course,
) -> Result<()> {
    time_checkpoints(rt, keeper, course)?;
    time_commits(rt, keeper, batch, course)
}

fn go<D: Disk + Drop>(
    rt: &(impl Print + Eprint + Clock),
    alloc: Global,
    table: &Table,
    disk: D,
    course: Course,
) -> Result<()> {
    let mut batch = Batch::new(alloc)?;
    let Ok(disk) = format(alloc, disk, table) else {
        return Err(anyhow!("formatting"));
    };
    let disk = time_opening(rt, alloc, "formatted", disk)?;
    let Ok(mut keeper) = open_store(alloc, disk) else {
        return Err(anyhow!("opening"));
    };
    let worked = work(rt, &mut keeper, &mut batch, course);
    let disk = keeper.into_disk();
    worked?;
    time_opening(rt, alloc, "left", disk)?;
    Ok(())
}

/// The works of a keeper of a file of the largest table, or of a small device in memory.
pub fn run(
    rt: &(impl Print + Eprint + Clock + Files<File = File> + AllocGlobal),
    alloc: Global,
    path: Option<&str>,
) -> Result<()> {
    match path {
        Some(path) => {
            let disk = FileDisk::make(rt, path, LARGEST_SIZE, LARGEST_SIZE, Unknown)?;
            go(rt, alloc, &table(alloc, LARGEST.alarms)?, disk, LARGEST)
        }
        None => {
            let disk = MemDisk::new(alloc, vec![in alloc; 0u8; SMALL_SIZE]?, CALLS)?;
            go(rt, alloc, &table(alloc, SMALL.alarms)?, disk, SMALL)
        }
    }
}

/// Opens the device in a file, as a process does.
pub fn open(
    rt: &(impl Print + Eprint + Clock + Files<File = File> + AllocGlobal),
    alloc: Global,
    path: &str,
) -> Result<()> {
    let disk = FileDisk::open_to_read(rt, path, Unknown)?;
    time_opening(rt, alloc, "open", disk)?;
    Ok(())
}
