//! Drawn rounds of four consoles: each seals one large batch, of which two or three fill half a segment, so that a
//! checkpoint is open before many of the commits.

use crate::drawn::{below, differs_at, random};
use crate::traces::{alike, trace_on};
use crate::world::World;
use alm_bench::{Step, StepEvent};
use alm_common_tests::{holds_at, reading_of, same_at, slot_of};
use alm_model::{Alarms, PlainPlant};
use alm_types::{Action, AlarmId, Slot, Table, Want};
use std::alloc::Global;
use std::test::Fail;

/// A checkpoint of 360 alarms has two pieces.
const ALARMS: u32 = 360;

/// How long the device is, and more calls than a run makes on it.
const DEVICE: (usize, usize) = (158_581, 1000);

/// The most calls of a checkpoint before a commit: the other half's gate and its sync, two pieces, a sync, the gate and its sync.
const BEFORE: u32 = 7;

/// How many rounds a run has before its crash, of 3 to 7 calls each, and how many runs are drawn.
const ROUNDS: u32 = 24;

/// How many actions a batch has.
const FEWEST: u32 = 40;

const MOST: u32 = 120;

/// How many calls the rounds before a crash make, at most.
const MOST_CALLS: u32 = 168;

const RUNS: u32 = 40;

const SEED: u64 = 88_172_645_463_325_252;

/// The places of the pending bytes that a crash changes: the segment of half 0 and its end, half 1 and its run, and its segment.
const PLACES: [u64; 4] = [75_186, 79_302, 79_310, 154_465];

/// What is drawn of a run, and how many setpoints were sent.
#[derive(Clone, Copy)]
struct Course {
    drawn: u64,
    sent: u32,
}

/// The console whose turn it is.
fn console(number: u32) -> Result<Slot, Fail> {
    slot_of((number % 4) as u8)
}

/// A setpoint that its alarm never had.
fn setpoint(number: u32) -> Result<Action, Fail> {
    let setpoint = reading_of(1000 + number as i64)?;
    Ok(Action::SetSetpoint(AlarmId(number % ALARMS), setpoint))
}

/// A drawn number of setpoints, sealed as one batch; a batch is fetched, `calls` device calls are made, and its replies are
/// released.
fn round(steps: &mut Vec<Step>, course: Course, calls: u32) -> Result<Course, Fail> {
    let actions = FEWEST.wrapping_add(below(course.drawn, 7, MOST - FEWEST));
    for number in 0..actions {
        let console = console(number)?;
        let action = setpoint(course.sent.wrapping_add(number))?;
        steps.push(Step::Send(console, Want::Do(action)))?;
        steps.push(Step::Take(console))?;
    }
    steps.push(Step::Seal)?;
    steps.push(Step::Fetch)?;
    for _call in 0..calls {
        steps.push(Step::Call)?;
    }
    steps.push(Step::Publish)?;
    for number in 0..MOST {
        steps.push(Step::Release)?;
        steps.push(Step::Receive(console(number)?))?;
    }
    steps.push(Step::GiveBack)?;
    Ok(Course {
        drawn: random(course.drawn),
        sent: course.sent.wrapping_add(actions),
    })
}

/// Pending bytes near a place, of which each becomes a closed gate, an open one or another byte.
fn bytes(alloc: Global, drawn: u64) -> Result<Vec<(u64, u8)>, Fail> {
    let mut bytes = Vec::new(alloc);
    let from = match PLACES.get(below(drawn, 30, 4) as usize) {
        Some(place) => place.wrapping_add(below(drawn, 40, 64) as u64),
        None => 0,
    };
    let byte = match below(drawn, 16, 3) {
        0 => 0x00,
        1 => 0xA5,
        _ => 0x3C,
    };
    for place in 0..below(drawn, 24, 200) as u64 {
        bytes.push((from.wrapping_add(place), byte))?;
    }
    Ok(bytes)
}

/// Rounds of a drawn number of calls, no more than `calls` in all; a crash, and two rounds on what it left.
fn steps(alloc: Global, seed: u64, calls: u32) -> Result<Vec<Step>, Fail> {
    let mut steps = Vec::new(alloc);
    let mut course = Course {
        drawn: random(seed),
        sent: 0,
    };
    let mut left = calls;
    steps.push(Step::Reopen)?;
    for _round in 0..ROUNDS {
        let made = left.min(3u32.wrapping_add(below(course.drawn, 11, 5)));
        left = left.wrapping_sub(made);
        course = round(&mut steps, course, made)?;
    }
    let bytes = bytes(alloc, course.drawn.wrapping_add(calls as u64))?;
    steps.push(Step::Crash(bytes))?;
    steps.push(Step::Reopen)?;
    for _round in 0..2 {
        course = round(&mut steps, course, BEFORE + 4)?;
    }
    steps.push(Step::Crash(Vec::new(alloc)))?;
    steps.push(Step::Reopen)?;
    Ok(steps)
}

/// The first place at which the trace of a run with `calls` calls before its crash isn't the world's.
fn run_differs_at(alloc: Global, seed: u64, calls: u32) -> Result<Option<usize>, Fail> {
    let steps = steps(alloc, seed, calls)?;
    let found = steps_differ_at(alloc, &steps);
    drop(steps);
    found
}

/// The first place at which the trace of these steps isn't that of a new world with a plain plant.
fn steps_differ_at(alloc: Global, steps: &[Step]) -> Result<Option<usize>, Fail> {
    let trace = trace_on(alloc, &alike(alloc, ALARMS as usize)?, DEVICE, steps)?;
    let found = trace_differs_at::<PlainPlant>(alloc, steps, &trace);
    drop(trace);
    found
}

/// The same of their trace.
fn trace_differs_at<P: Alarms + Drop>(
    alloc: Global,
    steps: &[Step],
    trace: &[StepEvent],
) -> Result<Option<usize>, Fail> {
    let table = alike(alloc, ALARMS as usize)?;
    let mut world = World::<P>::with_checkpoints(alloc, table, BEFORE)?;
    let found = differs_at(&mut world, steps, trace);
    drop(world);
    found
}

/// How many commits a trace has, and how many of them took more than their own four calls.
fn commits(trace: &[StepEvent]) -> (u32, u32) {
    let mut commits = 0u32;
    let mut behind_pieces = 0u32;
    let mut calls = 0u32;
    for event in trace {
        match event {
            StepEvent::Fetched => calls = 0,
            StepEvent::More => calls = calls.wrapping_add(1),
            StepEvent::Committed => {
                commits = commits.wrapping_add(1);
                behind_pieces = behind_pieces.wrapping_add(u32::from(calls > 3));
            }
            _ => {}
        }
    }
    (commits, behind_pieces)
}

/// How many calls continued a checkpoint while no batch was held. `None` if a call did after one before it found none open: only
/// another commit opens one.
fn calls_alone(steps: &[Step], trace: &[StepEvent]) -> Option<u32> {
    let mut is_held = false;
    let mut is_open = true;
    let mut alone = 0u32;
    for (step, event) in steps.iter().zip(trace) {
        match (step, event) {
            (Step::Fetch, StepEvent::Fetched) => is_held = true,
            (Step::Call, StepEvent::Committed) => {
                is_held = false;
                is_open = true;
            }
            (Step::Call, StepEvent::More) if !is_held && !is_open => return None,
            (Step::Call, StepEvent::More) if !is_held => alone = alone.wrapping_add(1),
            (Step::Call, StepEvent::Skipped) => is_open = false,
            _ => {}
        }
    }
    Some(alone)
}

#[test]
fn a_crash_after_each_call(rt: HostRuntime) -> Result<(), Fail> {
    for calls in 0..MOST_CALLS {
        same_at(calls, run_differs_at(rt.alloc(), SEED, calls)?, None)?;
    }
    Ok(())
}

#[test]
fn drawn_runs_answer_as_the_world_does(rt: HostRuntime) -> Result<(), Fail> {
    let mut seed = SEED;
    for _run in 0..RUNS {
        seed = random(seed);
        same_at(seed, run_differs_at(rt.alloc(), seed, MOST_CALLS)?, None)?;
    }
    Ok(())
}

#[test]
fn many_commits_stand_behind_pieces(rt: HostRuntime) -> Result<(), Fail> {
    let alloc = rt.alloc();
    let steps = steps(alloc, SEED, MOST_CALLS)?;
    let trace = trace_on(alloc, &alike(alloc, ALARMS as usize)?, DEVICE, &steps)?;
    let (commits, behind_pieces) = commits(&trace);
    holds_at(commits, commits >= ROUNDS / 2)?;
    holds_at((behind_pieces, commits), behind_pieces >= commits / 3)?;
    Ok(())
}

#[test]
fn a_checkpoint_continues_without_a_batch(rt: HostRuntime) -> Result<(), Fail> {
    let alloc = rt.alloc();
    let steps = steps(alloc, SEED, MOST_CALLS)?;
    let trace = trace_on(alloc, &alike(alloc, ALARMS as usize)?, DEVICE, &steps)?;
    let alone = calls_alone(&steps, &trace).ok_or("a call after the end of a checkpoint")?;
    holds_at(alone, alone >= BEFORE)?;
    Ok(())
}
