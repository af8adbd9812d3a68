//! The measure. A sum is over the answers.
//!
//! `bench/measure/run.sh` compares it with the same in plain Rust.
mod busy;

use crate::report::report;
use anyhow::Result;
use busy::{ALARMS, Busy};
use std::alloc::Global;
use std::rt::Clock;
use std::time::Instant;

const CALLS: u32 = 50_000_000;

const ROUNDS: u32 = 1_000_000;

/// `times` annunciations, in no order of numbers.
fn annunciate(busy: &mut Busy, times: u32) {
    for turn in 0..times {
        busy.annunciate(turn.wrapping_mul(7_919) % ALARMS);
    }
}

/// An annunciation and the windows of all areas, `times` times; a sum over the windows.
fn ask(busy: &mut Busy, times: u32) -> u64 {
    let mut sum = 0u64;
    for turn in 0..times {
        busy.annunciate(turn % ALARMS);
        sum = sum.wrapping_add(busy.windows());
    }
    sum
}

/// An annunciation and the flood flags of all areas, `times` times.
fn settle(busy: &mut Busy, times: u32) {
    for turn in 0..times {
        busy.annunciate(turn % ALARMS);
        busy.settle();
    }
}

/// A number of seconds; in each 300th each area has an annunciation.
fn pass(busy: &mut Busy, seconds: u32) {
    for second in 0..seconds {
        if second % 300 == 0 {
            annunciate(busy, 64);
        }
        busy.advance();
    }
}

/// Fills the windows: 100,000 annunciations in each of 600 seconds.
fn fill(busy: &mut Busy) {
    for _second in 0..600 {
        annunciate(busy, 100_000);
        busy.advance();
    }
}

fn time_annunciations(
    rt: &(impl Print + Eprint + Clock),
    busy: &mut Busy,
    name: &str,
) -> Result<()> {
    let start = Instant::now(rt)?;
    annunciate(busy, CALLS);
    let took = start.elapsed(rt)?.as_nanos();
    report(rt, name, busy.windows(), took)
}

fn time_windows(rt: &(impl Print + Eprint + Clock), busy: &mut Busy, name: &str) -> Result<()> {
    let start = Instant::now(rt)?;
    let sum = ask(busy, ROUNDS);
    let took = start.elapsed(rt)?.as_nanos();
    report(rt, name, sum, took)
}

fn time_settling(rt: &(impl Print + Eprint + Clock), busy: &mut Busy, name: &str) -> Result<()> {
    let start = Instant::now(rt)?;
    settle(busy, ROUNDS);
    let took = start.elapsed(rt)?.as_nanos();
    report(rt, name, busy.windows(), took)
}

fn time_seconds(rt: &(impl Print + Eprint + Clock), busy: &mut Busy) -> Result<()> {
    let start = Instant::now(rt)?;
    pass(busy, ROUNDS);
    let took = start.elapsed(rt)?.as_nanos();
    report(rt, "advance_64_areas", busy.windows(), took)
}

/// Times each call, with few annunciations and with many.
fn time_calls(rt: &(impl Print + Eprint + Clock), busy: &mut Busy) -> Result<()> {
    time_windows(rt, busy, "windows_few")?;
    time_settling(rt, busy, "settle_few")?;
    time_annunciations(rt, busy, "annunciated_few")?;
    fill(busy);
    time_windows(rt, busy, "windows_many")?;
    time_settling(rt, busy, "settle_many")?;
    time_annunciations(rt, busy, "annunciated_many")?;
    time_seconds(rt, busy)
}

/// The calls of a measure of the largest table.
pub fn run(rt: &(impl Print + Eprint + Clock), alloc: Global) -> Result<()> {
    let mut busy = Busy::new(alloc)?;
    let timed = time_calls(rt, &mut busy);
    drop(busy);
    timed
}
