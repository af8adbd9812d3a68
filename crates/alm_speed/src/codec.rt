//! The largest image, written and read.
//!
//! `bench/codec/run.sh` compares it with a loop in C that copies and sums as many bytes.

use crate::report::report;
use alm_codec::{image_len, read_image, write_image};
use alm_model::{Alarms, PlainPlant};
use alm_types::{Action, AlarmId, Attr, Kind, Reading, Settings, Table};
use anyhow::{Result, anyhow};
use std::alloc::Global;
use std::rt::Clock;
use std::time::Instant;

const ROWS: u32 = 16_384;

const IMAGE: usize = 3_289_168;

const ROUNDS: u32 = 50;

/// The largest table, its alarms spread over 64 areas.
fn table(alloc: Global) -> Result<Table> {
    let mut alarms = Vec::with_capacity(alloc, ROWS as usize)?;
    for number in 0..ROWS {
        let settings = Settings {
            kind: Kind::High,
            setpoint: 1,
            deadband: 0,
            priority: 1,
            area: (number % 64) as u8,
            latching: false,
            max_shelve: 604_800,
        };
        let Ok(attr) = Attr::new(settings, b"TI-101", b"the temperature is high") else {
            return Err(anyhow!("attributes"));
        };
        alarms.push(attr)?;
    }
    Table::new(alarms, 64).map_err(|_| anyhow!("table"))
}

/// Does an action, if it is admitted.
fn act<P: Alarms>(plant: &mut P, action: Action) {
    if plant.admits(&action).is_ok() {
        plant.apply(&action);
    }
}

/// Every alarm is annunciated.
fn annunciate<P: Alarms>(plant: &mut P, rows: u32, value: Reading) {
    for number in 0..rows {
        act(plant, Action::Value(AlarmId(number), value));
    }
}

/// A plant in which every alarm is annunciated.
fn plant<P: Alarms + Drop>(alloc: Global) -> Result<P> {
    let mut plant = P::new(alloc, &table(alloc)?)?;
    match Reading::new(1) {
        Some(high) => annunciate(&mut plant, ROWS, high),
        None => {}
    }
    Ok(plant)
}

/// Writes the image of a plant, if there is room for it.
fn write<P: Alarms>(plant: &P, out: &mut [u8]) -> bool {
    let size = image_len(plant.alarms() as u32, plant.areas() as u8);
    if (out.len() as u64) < size {
        return false;
    }
    write_image(plant, out);
    true
}

/// A sum over the bytes.
fn sum(bytes: &[u8]) -> u64 {
    let mut sum = 0u64;
    for byte in bytes {
        sum = sum.wrapping_add(*byte as u64);
    }
    sum
}

/// Writes the image a number of times.
fn write_again<P: Alarms>(plant: &P, out: &mut [u8]) -> u64 {
    let mut written = 0u64;
    for _round in 0..ROUNDS {
        written = written.wrapping_add(write(plant, out) as u64);
    }
    written
}

/// Reads the image a number of times.
fn read_again(alloc: Global, bytes: &[u8]) -> u64 {
    let mut stamps = 0u64;
    for _round in 0..ROUNDS {
        if let Ok(parts) = read_image(alloc, bytes, ROWS, 64, ROWS as u64) {
            stamps = stamps.wrapping_add(parts.next_stamp);
        }
    }
    stamps
}

/// Times the image of this plant.
fn time_image<P: Alarms>(
    rt: &(impl Print + Eprint + Clock),
    alloc: Global,
    plant: &P,
    bytes: &mut [u8],
) -> Result<()> {
    let start = Instant::now(rt)?;
    let written = write_again(plant, bytes);
    let took = start.elapsed(rt)?.as_nanos();
    report(rt, "write", written.wrapping_add(sum(bytes)), took)?;
    let start = Instant::now(rt)?;
    let stamps = read_again(alloc, bytes);
    let took = start.elapsed(rt)?.as_nanos();
    report(rt, "read", stamps, took)
}

fn time_plant<P: Alarms + Drop>(rt: &(impl Print + Eprint + Clock), alloc: Global) -> Result<()> {
    let plant = plant::<P>(alloc)?;
    let mut bytes = vec![in alloc; 0u8; IMAGE]?;
    time_image(rt, alloc, &plant, &mut bytes)
}

/// Writes the largest image, and reads it.
pub fn run(rt: &(impl Print + Eprint + Clock), alloc: Global) -> Result<()> {
    time_plant::<PlainPlant>(rt, alloc)
}
