//! A course of works over a device, and a judge of what it encodes after a fault and a crash.

use crate::choosers::Left;
use crate::steps::{batch, begin};
use crate::worked::{ack, clock, table, value};
use alm_disk::{Disk, MemDisk};
use alm_keeper::{Keeper, Progress, format, open_store};
use alm_model::{Alarms, PlainPlant};
use alm_plant::Plant;
use alm_types::{Action, AlarmId};
use std::alloc::Global;
use std::test::Fail;

/// What a device encodes: an epoch and how many actions; `None`: it isn't formatted.
pub type Stored = Option<(u64, u64)>;

/// A part of the course.
#[derive(Clone, Copy)]
pub struct Part {
    /// How many device calls it makes.
    pub calls: u64,
    /// Which of them, from 0, writes the open gate, and its place.
    pub opens: u64,
    pub gate: u64,
    pub before: Stored,
    pub after: Stored,
}

/// A part that makes `calls` calls, of which the last but one opens the gate at a place.
fn span(calls: u64, gate: u64, before: Stored, after: Stored) -> Part {
    Part {
        calls,
        opens: calls.saturating_sub(2),
        gate,
        before,
        after,
    }
}

/// Formatting, opening, two commits of one action and of two, a checkpoint to half 1, a commit of two, a checkpoint to half 0.
pub fn parts() -> [Part; 7] {
    [
        span(10, 0, None, Some((1, 0))),
        span(6, 0, Some((1, 0)), Some((1, 0))),
        span(4, 10_394, Some((1, 0)), Some((1, 1))),
        span(4, 10_429, Some((1, 1)), Some((1, 3))),
        span(4, 14_510, Some((1, 3)), Some((2, 3))),
        span(4, 24_881, Some((2, 3)), Some((2, 5))),
        span(6, 23, Some((2, 5)), Some((3, 5))),
    ]
}

/// How many calls the course makes.
pub const CALLS: u64 = 38;

/// The actions of the course.
pub fn actions() -> [Action; 5] {
    [clock(1000), value(0, 800), value(1, 100), ack(0), ack(1)]
}

/// Does the works of the course on an opened device, up to the first that isn't done.
fn works<D: Disk + Drop>(alloc: Global, keeper: &mut Keeper<D>) -> Result<bool, Fail> {
    for (first, end) in [(0, 1), (1, 3), (3, 3), (3, 5), (5, 5)] {
        let all = actions();
        let next = all.get(first..end).unwrap_or(&[]);
        if next.is_empty() {
            if keeper.begin_checkpoint().is_err() {
                return Ok(false);
            }
        } else {
            let batch = batch(alloc, first as u64 + 1, next)?;
            if begin(keeper, &batch) != Some(Ok(())) {
                return Ok(false);
            }
        }
        if finish(keeper) != Progress::Done {
            return Ok(false);
        }
    }
    Ok(true)
}

/// The calls of the work that is begun, to its end.
fn finish<D: Disk + Drop>(keeper: &mut Keeper<D>) -> Progress {
    crate::steps::advance(keeper, 6)
}

/// The course over a device, up to the first call that fails: whether all was done, and the device.
pub fn play<D: Disk + Drop>(alloc: Global, disk: D) -> Result<(bool, D), Fail> {
    let disk = match format(alloc, disk, &table(alloc)?) {
        Ok(disk) => disk,
        Err((_, disk)) => return Ok((false, disk)),
    };
    match open_store(alloc, disk) {
        Ok(mut keeper) => {
            let done = works(alloc, &mut keeper);
            let disk = keeper.into_disk();
            Ok((done?, disk))
        }
        Err((_, disk)) => Ok((false, disk)),
    }
}

/// The part to which the call after `calls` calls belongs, and how many of its calls came before.
pub fn part_of(calls: u64) -> Option<(Part, u64)> {
    let mut before: u64 = 0;
    for part in parts() {
        let end = before.saturating_add(part.calls);
        if calls >= before && calls < end {
            return Some((part, calls.saturating_sub(before)));
        }
        before = end;
    }
    None
}

/// What a device encodes after a crash, if the call after `calls` calls failed. It is what is stored after the part, if the
/// gate's write was begun and the crash leaves the gate open, and else what was stored before.
pub fn judged(calls: u64, disk: &MemDisk, left: &Left) -> Stored {
    match part_of(calls) {
        Some((part, made)) => {
            let read = disk.bytes().get(part.gate as usize).copied().unwrap_or(0);
            if made >= part.opens && left.byte(part.gate, read) == 0xA5 {
                part.after
            } else {
                part.before
            }
        }
        None => Some((3, 5)),
    }
}

/// Whether a plant is the one that the first actions of the course make of the table.
pub fn is_after(alloc: Global, plant: &Plant, count: u64) -> Result<bool, Fail> {
    let mut judge = PlainPlant::new(alloc, &table(alloc)?)?;
    for (done, action) in actions().iter().enumerate() {
        if (done as u64) < count && judge.admits(action).is_ok() {
            judge.apply(action);
        }
    }
    let mut same = plant.now() == judge.now() && plant.next_stamp() == judge.next_stamp();
    for number in 0..4 {
        same = same && plant.state(AlarmId(number)) == judge.state(AlarmId(number));
    }
    drop(judge);
    Ok(same && plant.count() == count)
}
