//! Drawn steps, with crashes at drawn calls and drawn bytes.

ghost use Rattle.std.specs.Prelude.{◌<◌};

use crate::traces::trace;
use crate::world::World;
use alm_bench::{Step, StepEvent};
use alm_common_tests::{moment_of, reading_of, same, slot_of};
use alm_desk::worked_table;
use alm_model::{Alarms, PlainPlant};
use alm_types::{Action, AlarmId, Query, Slot, Want};
use std::alloc::Global;
use std::test::Fail;

/// Long runs, and short ones: how many, and of how many steps.
const LONG: (u32, u32) = (40, 1000);

const SHORT: (u32, u32) = (10_000, 60);

/// More calls than a run makes.
const CALLS: usize = 5000;

pub fn random(seed: u64) -> u64 {
    let a = seed ^ (seed << 13);
    let b = a ^ (a >> 7);
    b ^ (b << 17)
}

/// A number below a bound, from some bits of a drawn one.
pub fn below(drawn: u64, shift: u32, bound: u32) -> u32
    requires { 0 < bound }
{
    (drawn.wrapping_shr(shift) % bound as u64) as u32
}

/// Two consoles, the feed or the clock.
fn slot(drawn: u64) -> Result<Slot, Fail> {
    let number = match below(drawn, 5, 4) {
        0 => 0,
        1 => 7,
        2 => 16,
        _ => 17,
    };
    slot_of(number)
}

/// A drawn action; the clock moves to a moment.
fn action(drawn: u64, now: u64) -> Result<Action, Fail> {
    let id = AlarmId(below(drawn, 8, 5));
    Ok(match below(drawn, 12, 16) {
        0 | 1 | 2 => Action::Clock(moment_of(now)?),
        3 | 4 | 5 => Action::Ack(id),
        6 => Action::Shelve(id, below(drawn, 44, 9)),
        7 => Action::Oos(id, below(drawn, 40, 2) == 0),
        _ => Action::Value(id, reading_of(100 * below(drawn, 50, 10) as i64)?),
    })
}

/// Whose action it is, and at times another slot.
fn sender(drawn: u64, action: &Action) -> Result<Slot, Fail> {
    if below(drawn, 36, 8) == 0 {
        return slot(drawn);
    }
    let number = match action {
        Action::Clock(_) => 17,
        Action::Value(_, _) => 16,
        _ => 7,
    };
    slot_of(number)
}

fn query(drawn: u64) -> Query {
    match below(drawn, 20, 10) {
        0 => Query::State(AlarmId(below(drawn, 8, 5))),
        1 => Query::Priority(below(drawn, 8, 6)),
        2 => Query::Flood(below(drawn, 8, 3)),
        3 => Query::Area(below(drawn, 8, 3)),
        4 => Query::Stale,
        5 => Query::Chatter,
        6 => Query::Plant,
        7 => Query::Attributes(AlarmId(below(drawn, 8, 5))),
        8 => Query::Row(AlarmId(below(drawn, 8, 5))),
        _ => Query::Wheel(below(drawn, 8, 300)),
    }
}

/// The start of the frames of the half that stands at first.
const FRAMES: u64 = 10_394;

/// A closed gate, an open one, or another byte.
fn byte(drawn: u64) -> u8 {
    match below(drawn, 16, 3) {
        0 => 0x00,
        1 => 0xA5,
        _ => 0x3C,
    }
}

/// Bytes for a few places among the first frames.
fn bytes(alloc: Global, drawn: u64) -> Result<Vec<(u64, u8)>, Fail> {
    let mut bytes = Vec::new(alloc);
    let from = FRAMES.wrapping_add(below(drawn, 30, 400) as u64);
    for place in 0..below(drawn, 24, 200) as u64 {
        bytes.push((from.wrapping_add(place), byte(drawn)))?;
    }
    Ok(bytes)
}

/// A request from a slot that may ask for it.
fn send(drawn: u64, now: u64) -> Result<Step, Fail> {
    let action = action(drawn, now)?;
    let slot = sender(drawn, &action)?;
    Ok(Step::Send(slot, Want::Do(action)))
}

/// A drawn step.
fn step(alloc: Global, drawn: u64, now: u64) -> Result<Step, Fail> {
    Ok(match below(drawn, 54, 1024) {
        0..=179 => send(drawn, now)?,
        180..=359 => Step::Take(slot(drawn)?),
        360..=419 => Step::Seal,
        420..=489 => Step::Fetch,
        490..=709 => Step::Call,
        710..=769 => Step::Publish,
        770..=879 => Step::Release,
        880..=929 => Step::GiveBack,
        930..=979 => Step::Receive(slot(drawn)?),
        980..=999 => Step::Look(slot(drawn)?, query(drawn)),
        1000..=1003 => Step::Crash(bytes(alloc, drawn)?),
        _ => Step::Reopen,
    })
}

/// The steps of a run, of which the last are a crash and a reopening.
fn steps(alloc: Global, seed: u64, count: u32) -> Result<Vec<Step>, Fail> {
    let mut steps = Vec::new(alloc);
    let mut drawn = seed;
    steps.push(Step::Reopen)?;
    for turn in 0..count {
        drawn = random(drawn);
        steps.push(step(alloc, drawn, turn as u64)?)?;
    }
    steps.push(Step::Crash(Vec::new(alloc)))?;
    steps.push(Step::Reopen)?;
    Ok(steps)
}

/// The first place at which a trace isn't the world's.
pub fn differs_at<P: Alarms + Drop>(
    world: &mut World<P>,
    steps: &[Step],
    trace: &[StepEvent],
) -> Result<Option<usize>, Fail> {
    if trace.len() != steps.len() {
        return Ok(Some(trace.len()));
    }
    for (place, step) in steps.iter().enumerate() {
        let Some(event) = trace.get(place) else {
            return Ok(Some(place));
        };
        let wanted = world.answers(step, *event)?;
        if wanted != *event {
            return Ok(Some(place));
        }
    }
    Ok(None)
}

/// The first place at which the trace of a number of drawn steps isn't the world's.
fn run_differs_at(alloc: Global, seed: u64, count: u32) -> Result<Option<usize>, Fail> {
    let steps = steps(alloc, seed, count)?;
    let found = steps_differ_at(alloc, &steps);
    drop(steps);
    found
}

/// The first place at which the trace of these steps isn't that of a new world with a plain plant.
fn steps_differ_at(alloc: Global, steps: &[Step]) -> Result<Option<usize>, Fail> {
    let trace = trace(alloc, CALLS, steps)?;
    let found = trace_differs_at::<PlainPlant>(alloc, steps, &trace);
    drop(trace);
    found
}

/// The same of their trace.
fn trace_differs_at<P: Alarms + Drop>(
    alloc: Global,
    steps: &[Step],
    trace: &[StepEvent],
) -> Result<Option<usize>, Fail> {
    let mut world = World::<P>::new(alloc, worked_table(alloc)?)?;
    let found = differs_at(&mut world, steps, trace);
    drop(world);
    found
}

/// The first of a number of runs that differs, and its place.
fn runs_differ_at(alloc: Global, (runs, count): (u32, u32)) -> Result<Option<(u32, usize)>, Fail> {
    let mut seed = 88_172_645_463_325_252;
    for run in 0..runs {
        seed = random(seed);
        if let Some(place) = run_differs_at(alloc, seed, count)? {
            return Ok(Some((run, place)));
        }
    }
    Ok(None)
}

#[test]
fn long_runs_of_drawn_steps_answer_as_the_world_does(rt: HostRuntime) -> Result<(), Fail> {
    same(runs_differ_at(rt.alloc(), LONG)?, None)?;
    Ok(())
}

#[test]
fn short_runs_of_drawn_steps_answer_as_the_world_does(rt: HostRuntime) -> Result<(), Fail> {
    same(runs_differ_at(rt.alloc(), SHORT)?, None)?;
    Ok(())
}
