//! A request's way from its console to its receipt: rings, sequencer, flusher, keeper and board in one thread. A sum is how many
//! receipts came, those of accepted actions twice.
//!
//! Batches of refusals make no device call, and use a device in memory. With the path of a file, batches of accepted actions are
//! committed to it, in four calls each. `bench/flusher/run.sh` compares it with the same way in plain Rust.
mod asked;
mod round;

use crate::report::report;
use alm_disk::{Disk, MemDisk};
use alm_file::{FileDisk, Unknown};
use alm_flush_tests::opened::open_formatted;
use alm_flush_tests::parts::Parts;
use alm_rings::open_slots;
use alm_store::Store;
use alm_types::Request;
use anyhow::{Result, anyhow};
use asked::{Course, Values, table};
use round::round;
use std::alloc::Global;
use std::fs::{File, Files};
use std::rt::Clock;
use std::time::Instant;

/// The bytes of a device for the largest table, with segments of 24 MiB.
const DEVICE: usize = 58_720_256;

/// The bytes of a device for 64 alarms.
const SMALL: usize = 65_536;

/// How many device calls formatting and opening make, at most.
const FIRST_CALLS: usize = 32;

/// Runs a number of rounds of a course, and reports them.
fn time_course<K: Store>(
    rt: &(impl Print + Eprint + Clock),
    parts: &mut Parts<K>,
    asked: &mut Vec<Request>,
    name: &str,
    course: Course,
    rounds: u64,
) -> Result<()> {
    let values = Values::new().ok_or_else(|| anyhow!("values"))?;
    let start = Instant::now(rt)?;
    let mut sum = 0u64;
    for turn in 0..rounds {
        course.ask(&values, turn, asked)?;
        sum = sum.wrapping_add(round(parts, asked));
    }
    let took = start.elapsed(rt)?.as_nanos();
    report(rt, name, sum, took)
}

/// Two courses, each with its name and its number of turns.
type Courses<'a> = [(&'a str, Course, u64); 2];

fn time_courses<K: Store>(
    rt: &(impl Print + Eprint + Clock),
    parts: &mut Parts<K>,
    asked: &mut Vec<Request>,
    courses: &Courses<'_>,
) -> Result<()> {
    for (name, course, turns) in courses {
        time_course(rt, parts, asked, name, *course, *turns)?;
    }
    Ok(())
}

/// Courses over a device that is formatted for a number of alarms.
fn time_over<D: Disk + Drop>(
    rt: &(impl Print + Eprint + Clock),
    alloc: Global,
    alarms: usize,
    disk: D,
    courses: &Courses<'_>,
) -> Result<()> {
    let table = table(alloc, alarms)?;
    let mut asked = Vec::with_capacity(alloc, 256)?;
    let store = open_formatted(alloc, &table, disk)?;
    let mut parts = Parts::new(alloc, open_slots(alloc)?, store)?;
    let timed = time_courses(rt, &mut parts, &mut asked, courses);
    drop(parts.flusher.into_keeper().into_disk());
    timed
}

/// Batches of refusals, over a device in memory.
fn time_refusals(
    rt: &(impl Print + Eprint + Clock),
    alloc: Global,
    alarms: usize,
    size: usize,
    names: [&str; 2],
) -> Result<()> {
    let disk = MemDisk::new(alloc, vec![in alloc; 0u8; size]?, FIRST_CALLS)?;
    let all = Course::Refused {
        slots: 18,
        each: 14,
    };
    let one = Course::Refused { slots: 1, each: 1 };
    let courses = [(names[0], all, 4000), (names[1], one, 200_000)];
    time_over(rt, alloc, alarms, disk, &courses)
}

/// Batches of accepted actions, over a file.
fn time_commits(
    rt: &(impl Print + Eprint + Clock),
    alloc: Global,
    disk: FileDisk<Unknown>,
) -> Result<()> {
    let many = Course::Accepted { each: 64, after: 0 };
    let one = Course::Accepted {
        each: 1,
        after: 256_000,
    };
    let courses = [("accepted_128", many, 4000), ("accepted_2", one, 20_000)];
    time_over(rt, alloc, 16_384, disk, &courses)
}

/// Batches of refusals, over a small device and the largest; and with a file batches of accepted actions.
pub fn run(
    rt: &(impl Print + Eprint + Clock + Files<File = File> + AllocGlobal),
    alloc: Global,
    path: Option<&str>,
) -> Result<()> {
    time_refusals(rt, alloc, 64, SMALL, ["refused_252", "refused_1"])?;
    let names = ["refused_252_largest", "refused_1_largest"];
    time_refusals(rt, alloc, 16_384, DEVICE, names)?;
    match path {
        Some(path) => {
            let disk = FileDisk::make(rt, path, DEVICE as u64, DEVICE as u64, Unknown)?;
            time_commits(rt, alloc, disk)
        }
        None => Ok(()),
    }
}
