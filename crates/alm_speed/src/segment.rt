//! A full segment of 16 MiB, scanned. The sum is over the answers.
//!
//! `bench/segment/run.sh` compares it with a loop in C that reads the same fields.

use crate::report::report;
use alm_codec::{Asked, Asker, OPEN_GATE, Version, write_frame_body};
use alm_segment::Scanner;
use alm_types::{Action, AlarmId, Reading};
use anyhow::{Result, anyhow};
use std::alloc::Global;
use std::rt::Clock;
use std::time::Instant;

const SIZE: usize = 16_777_216;

/// As many frames of 256 actions as fit, and their bytes: a gate, a head of 18 and 16 for each action.
const FRAMES: u32 = 4077;

const ROUNDS: u32 = 20;

/// Values of 256 alarms.
fn actions(alloc: Global) -> Result<Vec<Asked>> {
    let value = Reading::new(1).ok_or_else(|| anyhow!("reading"))?;
    let mut actions = Vec::with_capacity(alloc, 256)?;
    for number in 0..256u32 {
        let action = Action::Value(AlarmId(number), value);
        let asker = Asker::nobody();
        actions.push(Asked { asker, action })?;
    }
    Ok(actions)
}

/// A segment of epoch 1 that is full.
fn segment(alloc: Global) -> Result<Vec<u8>> {
    let actions = actions(alloc)?;
    let mut bytes = Vec::with_capacity(alloc, SIZE)?;
    let mut body = vec![in alloc; 0u8; 4115]?;
    let mut first = 1u64;
    for _frame in 0..FRAMES {
        if actions.is_empty() || actions.len() > 256 || body.len() < 19 + 16 * actions.len() {
            return Err(anyhow!("frame"));
        }
        write_frame_body(1, first, &actions, &mut body, Version::V02);
        bytes.push(OPEN_GATE)?;
        bytes.extend_from_slice(body.get(..4114).ok_or_else(|| anyhow!("body"))?)?;
        first = first.wrapping_add(256);
    }
    for _byte in bytes.len()..SIZE {
        bytes.push(0)?;
    }
    Ok(bytes)
}

/// A sum over the alarms that the actions name.
fn scan(bytes: &[u8]) -> u64 {
    let mut scanner = Scanner::new(bytes, 1, 0, Version::V02);
    let mut sum = 0u64;
    for _action in 0..2_000_000 {
        match scanner.next_action() {
            Ok(Some(Action::Value(id, _))) => sum = sum.wrapping_add(u64::from(id.0) + 1),
            Ok(Some(_)) => {}
            Ok(None) => break,
            Err(damage) => return damage.at as u64,
        }
    }
    sum
}

/// Scans a number of times; a sum over the sums.
fn scan_again(bytes: &[u8]) -> u64 {
    let mut sum = 0u64;
    for _round in 0..ROUNDS {
        sum = sum.wrapping_add(scan(bytes));
    }
    sum
}

/// Scans the segment again and again.
pub fn run(rt: &(impl Print + Eprint + Clock), alloc: Global) -> Result<()> {
    let bytes = segment(alloc)?;
    let start = Instant::now(rt)?;
    let sum = scan_again(&bytes);
    let took = start.elapsed(rt)?.as_nanos();
    report(rt, "scan", sum, took)
}
