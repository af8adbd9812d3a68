//! Crashes while a checkpoint of 1,000 alarms goes out in three pieces.

use crate::traces::{alike, trace_on};
use alm_bench::{Step, StepEvent};
use alm_common_tests::{moment_of, same_at, slot_of};
use alm_types::{Action, Slot, Table, Want};
use std::alloc::Global;
use std::test::Fail;

const ALARMS: usize = 1000;

/// How long the device is, and more calls than a run makes on it.
const DEVICE: (usize, usize) = (391_541, 1000);

/// One action of the clock from its request to its receipt, with `calls` device calls.
fn tick(steps: &mut Vec<Step>, clock: Slot, turn: u64, calls: u32) -> Result<(), Fail> {
    let now = Action::Clock(moment_of(turn)?);
    steps.push(Step::Send(clock, Want::Do(now)))?;
    steps.push(Step::Take(clock))?;
    steps.push(Step::Seal)?;
    steps.push(Step::Fetch)?;
    for _call in 0..calls {
        steps.push(Step::Call)?;
    }
    steps.push(Step::Publish)?;
    steps.push(Step::Release)?;
    steps.push(Step::GiveBack)?;
    steps.push(Step::Receive(clock))?;
    Ok(())
}

/// 59 commits of one action, of which the last opens a checkpoint; the next three as far as `calls` device calls take them, and a
/// crash.
fn steps(alloc: Global, clock: Slot, calls: u32) -> Result<Vec<Step>, Fail> {
    let mut steps = Vec::new(alloc);
    let mut left = calls;
    steps.push(Step::Reopen)?;
    for turn in 1..=59 {
        tick(&mut steps, clock, turn, 4)?;
    }
    for (turn, most) in [(60, 5), (61, 5), (62, 8)] {
        let made = left.min(most);
        left = left.wrapping_sub(made);
        tick(&mut steps, clock, turn, made)?;
    }
    steps.push(Step::Crash(Vec::new(alloc)))?;
    steps.push(Step::Reopen)?;
    Ok(steps)
}

/// What is opened after it, if the pending bytes stay as they read.
fn opened_after(alloc: Global, table: &Table, calls: u32) -> Result<Option<StepEvent>, Fail> {
    let steps = steps(alloc, slot_of(17)?, calls)?;
    Ok(trace_on(alloc, table, DEVICE, &steps)?.last().copied())
}

/// A commit's frame is there from its third call on. Each of the first two commits comes after one piece. The third comes after
/// the last piece, a sync, the gate and its sync.
#[test]
fn a_crash_after_each_call_of_commits_between_pieces(rt: HostRuntime) -> Result<(), Fail> {
    let alloc = rt.alloc();
    let table = alike(alloc, ALARMS)?;
    let counts = [
        59, 59, 59, 59, 60, 60, 60, 60, 60, 61, 61, 61, 61, 61, 61, 61, 61, 62, 62,
    ];
    for (calls, count) in counts.into_iter().enumerate() {
        same_at(
            calls,
            opened_after(alloc, &table, calls as u32)?,
            Some(StepEvent::Opened(count)),
        )?;
    }
    Ok(())
}
