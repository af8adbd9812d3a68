//! Actions on the linked plant, and on the plain one for comparison. A sum is over the answers.
//!
//! `bench/plant/run.sh` compares it with the same in plain Rust.
mod plants;

use crate::report::report;
use alm_model::{Alarms, List, PlainPlant};
use alm_plant::Plant;
use alm_types::{Action, AlarmId, Slot, Table};
use anyhow::{Result, anyhow};
use plants::{ALARMS, Senders, send, table, tick};
use std::alloc::Global;
use std::rt::Clock;
use std::time::Instant;

/// What is done to a plant a number of times; how many actions were accepted.
#[derive(Clone, Copy)]
enum Course {
    /// A second with 4,096 values and acknowledgements of alarms at random.
    Random,
    /// A second in which each alarm comes, is acknowledged and goes.
    InTurn,
    /// A second with 1,000 shelvings that end with it.
    ShelvingsEnd,
    /// A second in which nothing happens.
    Seconds,
}

fn random(seed: u64) -> u64 {
    let a = seed ^ (seed << 13);
    let b = a ^ (a >> 7);
    b ^ (b << 17)
}

/// A value or an acknowledgement, as drawn.
fn drawn(senders: &Senders, drawn: u64) -> (Slot, Action) {
    let id = AlarmId(((drawn >> 8) % u64::from(ALARMS)) as u32);
    if drawn & 1 == 1 {
        return (senders.console, Action::Ack(id));
    }
    let value = if drawn & 2 == 0 {
        senders.high
    } else {
        senders.low
    };
    (senders.feed, Action::Value(id, value))
}

fn at_random<P: Alarms>(plant: &mut P, senders: &Senders, seed: &mut u64) -> u32 {
    let mut accepted = 0u32;
    for _turn in 0..4096 {
        *seed = random(*seed);
        let (slot, want) = drawn(senders, *seed);
        accepted = accepted.wrapping_add(send(plant, slot, want));
    }
    accepted
}

fn in_turn<P: Alarms>(plant: &mut P, senders: &Senders) -> u32 {
    let mut accepted = 0u32;
    for number in 0..ALARMS {
        let id = AlarmId(number);
        accepted = accepted
            .wrapping_add(send(plant, senders.feed, Action::Value(id, senders.high)))
            .wrapping_add(send(plant, senders.console, Action::Ack(id)))
            .wrapping_add(send(plant, senders.feed, Action::Value(id, senders.low)));
    }
    accepted
}

fn shelve<P: Alarms>(plant: &mut P, senders: &Senders) -> u32 {
    let mut accepted = 0u32;
    for number in 0..1000 {
        accepted = accepted.wrapping_add(send(
            plant,
            senders.console,
            Action::Shelve(AlarmId(number), 1),
        ));
    }
    accepted
}

/// A number of seconds of a course; how many actions were accepted.
fn pass<P: Alarms>(plant: &mut P, senders: &Senders, course: Course, seconds: u32) -> u32 {
    let mut seed = 88172645463325252;
    let mut accepted = 0u32;
    for second in 0..seconds {
        let within = match course {
            Course::Random => at_random(plant, senders, &mut seed),
            Course::InTurn => in_turn(plant, senders),
            Course::ShelvingsEnd => shelve(plant, senders),
            Course::Seconds => 0,
        };
        accepted = accepted
            .wrapping_add(within)
            .wrapping_add(tick(plant, senders, second));
    }
    accepted
}

/// Fills the list of priority 1 a number of times; a sum over its lengths.
fn fill<P: Alarms>(plant: &P, times: u32, out: &mut Vec<u32>) -> u32 {
    let mut sum = 0u32;
    for _time in 0..times {
        if plant.has_list(List::Priority(1)) && plant.alarms() <= out.capacity() {
            plant.fill(List::Priority(1), out);
            sum = sum.wrapping_add((out.len() % 65_536) as u32);
        }
    }
    sum
}

/// Every alarm is annunciated.
fn annunciate<P: Alarms>(plant: &mut P, senders: &Senders) {
    for number in 0..ALARMS {
        send(
            plant,
            senders.feed,
            Action::Value(AlarmId(number), senders.high),
        );
    }
}

fn time_course<P: Alarms>(
    rt: &(impl Print + Eprint + Clock),
    plant: &mut P,
    name: &str,
    course: Course,
    seconds: u32,
) -> Result<()> {
    let senders = Senders::new().ok_or_else(|| anyhow!("senders"))?;
    let start = Instant::now(rt)?;
    let accepted = pass(plant, &senders, course, seconds);
    let took = start.elapsed(rt)?.as_nanos();
    report(rt, name, u64::from(accepted), took)
}

fn time_fill<P: Alarms>(
    rt: &(impl Print + Eprint + Clock),
    alloc: Global,
    plant: &mut P,
    name: &str,
    times: u32,
) -> Result<()> {
    let senders = Senders::new().ok_or_else(|| anyhow!("senders"))?;
    let mut out = Vec::with_capacity(alloc, ALARMS as usize)?;
    annunciate(plant, &senders);
    let start = Instant::now(rt)?;
    let sum = fill(plant, times, &mut out);
    let took = start.elapsed(rt)?.as_nanos();
    report(rt, name, u64::from(sum), took)
}

/// A course on a new plant.
fn time_new<P: Alarms + Drop>(
    rt: &(impl Print + Eprint + Clock),
    alloc: Global,
    table: &Table,
    (name, course, seconds): (&str, Course, u32),
) -> Result<()> {
    let mut plant = P::new(alloc, table)?;
    time_course(rt, &mut plant, name, course, seconds)
}

/// Lists of a new plant.
fn time_lists_of_new<P: Alarms + Drop>(
    rt: &(impl Print + Eprint + Clock),
    alloc: Global,
    table: &Table,
    (name, times): (&str, u32),
) -> Result<()> {
    let mut plant = P::new(alloc, table)?;
    time_fill(rt, alloc, &mut plant, name, times)
}

/// The courses on the linked plant: their names, and how many seconds they take.
const COURSES: [(&str, Course, u32); 4] = [
    ("random", Course::Random, 1000),
    ("in_turn", Course::InTurn, 100),
    ("shelvings_end", Course::ShelvingsEnd, 1000),
    ("seconds", Course::Seconds, 1_000_000),
];

/// Courses and lists on the linked plant, and fewer on the plain one.
pub fn run(rt: &(impl Print + Eprint + Clock), alloc: Global) -> Result<()> {
    let table = table(alloc)?;
    for course in COURSES {
        time_new::<Plant>(rt, alloc, &table, course)?;
    }
    time_lists_of_new::<Plant>(rt, alloc, &table, ("fill", 2000))?;
    time_new::<PlainPlant>(rt, alloc, &table, ("plain_random", Course::Random, 2))?;
    time_lists_of_new::<PlainPlant>(rt, alloc, &table, ("plain_fill", 2))
}
