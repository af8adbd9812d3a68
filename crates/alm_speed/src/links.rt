//! Chains and the wheel. A sum is over the answers.
//!
//! `bench/links/run.sh` compares it with the same in plain Rust.
ghost use Rattle.std.specs.Prelude.{◌≡◌, ◌<◌, ◌≤◌, IfOk, length, vec_capacity};
ghost use Rattle.alm_speed.specs.Sizes.{IsOfSizes};

use crate::report::report;
use alm_links::Chains;
use alm_wheel::Wheel;
use anyhow::Result;
use std::alloc::{AllocError, Global};
use std::rt::Clock;
use std::time::Instant;

const NODES: u32 = 16_384;

const LISTS: u32 = 64;

const WEEK: u32 = 604_800;

const MOVES: u32 = 30_000_000;

fn random(seed: u64) -> u64 {
    let a = seed ^ (seed << 13);
    let b = a ^ (a >> 7);
    b ^ (b << 17)
}

fn below(number: u64, bound: u32) -> u32
    requires { 0 < bound }
    ensures { result < bound }
{
    (number % bound as u64) as u32
}

/// Puts a node at the end of a list, or takes it out if it is in one; whether it was put.
fn move_one(chains: &mut Chains, nodes: u32, lists: u32, list: u32, node: u32) -> bool
    requires sizes { IsOfSizes nodes lists chains.old }
    requires list { list < lists }
    requires node { node < nodes }
    ensures { IsOfSizes nodes lists chains.new }
{
    let free = chains.list_of(0, node).is_none();
    if free {
        chains.push_back(0, list, node);
    } else {
        chains.unlink(0, node);
    }
    free
}

/// `count` moves at random; how many nodes were put.
fn moves(chains: &mut Chains, nodes: u32, lists: u32, count: u32) -> u32
    requires sizes { IsOfSizes nodes lists chains.old }
    requires nodes { 0 < nodes }
    requires lists { 0 < lists }
{
    let mut seed = 88172645463325252;
    let mut sum = 0u32;
    for _turn in 0..count {
        seed = random(seed);
        let node = below(seed >> 8, nodes);
        let list = below(seed >> 40, lists);
        if move_one(chains, nodes, lists, list, node) {
            sum = sum.wrapping_add(1);
        }
    }
    sum
}

fn shelve(wheel: &mut Wheel, nodes: u32, node: u32, deadline: u64)
    requires sizes { length wheel.old.deadlines ≡ nodes }
    requires node { node < nodes }
    ensures { length wheel.new.deadlines ≡ nodes }
{
    if wheel.deadline_of(node).is_none() {
        wheel.put(node, deadline);
    }
}

/// A deadline for each node, in no order of numbers: all at one moment, or spread over `seconds` seconds after it.
fn shelved(alloc: Global, nodes: u32, moment: u64, seconds: u32) -> Result<Wheel, AllocError>
    requires nodes { 0 < nodes }
    requires seconds { 0 < seconds }
    ensures { IfOk result (λ w. length w.deadlines ≡ nodes) }
{
    let mut wheel = Wheel::new(alloc, nodes)?;
    let mut seed = 88172645463325252;
    for turn in 0..nodes {
        seed = random(seed);
        let node = below((turn as u64).wrapping_mul(7_919), nodes);
        shelve(
            &mut wheel,
            nodes,
            node,
            moment.wrapping_add(below(seed, seconds) as u64),
        );
    }
    Ok(wheel)
}

/// Asks a number of times for all that is due from one moment to the next; a sum over the lists.
fn ask(wheel: &Wheel, rounds: u32, from: u64, step: u64, out: &mut Vec<u32>) -> u64
    requires { length wheel.now.deadlines ≤ vec_capacity out.old }
    ensures { vec_capacity out.old ≤ vec_capacity out.new }
{
    let mut sum = 0u64;
    let mut at = from;
    for _round in 0..rounds {
        let to = at.wrapping_add(step);
        wheel.due(at, to, out);
        sum = sum.wrapping_add(out.len() as u64);
        if let Some(first) = out.first() {
            sum = sum.wrapping_add(*first as u64);
        }
        at = to;
    }
    sum
}

/// Asks a number of times for the same seconds.
fn ask_again(wheel: &Wheel, times: u32, from: u64, step: u64, out: &mut Vec<u32>) -> u64
    requires { length wheel.now.deadlines ≤ vec_capacity out.old }
    ensures { vec_capacity out.old ≤ vec_capacity out.new }
{
    let mut sum = 0u64;
    for _time in 0..times {
        sum = sum.wrapping_add(ask(wheel, 1, from, step, out));
    }
    sum
}

fn new_chains(alloc: Global, nodes: u32, lists: u32) -> Result<Chains, AllocError>
    ensures { IfOk result (IsOfSizes nodes lists) }
{
    Chains::new(alloc, nodes, &[lists])
}

fn time_moves(
    rt: &(impl Print + Eprint + Clock),
    alloc: Global,
    nodes: u32,
    lists: u32,
) -> Result<()>
    requires nodes { 0 < nodes }
    requires lists { 0 < lists }
{
    let mut chains = new_chains(alloc, nodes, lists)?;
    let start = Instant::now(rt)?;
    let sum = moves(&mut chains, nodes, lists, MOVES);
    let took = start.elapsed(rt)?.as_nanos();
    report(rt, "moves", sum as u64, took)
}

fn time_second(rt: &(impl Print + Eprint + Clock), alloc: Global, nodes: u32) -> Result<()>
    requires { 0 < nodes }
{
    let mut out = Vec::with_capacity(alloc, nodes as usize)?;
    let wheel = shelved(alloc, nodes, 1_000, 1)?;
    let start = Instant::now(rt)?;
    let sum = ask_again(&wheel, 200, 999, 1, &mut out);
    let took = start.elapsed(rt)?.as_nanos();
    report(rt, "due_in_one_second", sum, took)
}

fn time_each_second(rt: &(impl Print + Eprint + Clock), alloc: Global, nodes: u32) -> Result<()>
    requires { 0 < nodes }
{
    let mut out = Vec::with_capacity(alloc, nodes as usize)?;
    let wheel = shelved(alloc, nodes, 1, WEEK)?;
    let start = Instant::now(rt)?;
    let sum = ask(&wheel, WEEK, 0, 1, &mut out);
    let took = start.elapsed(rt)?.as_nanos();
    report(rt, "due_each_second_of_a_week", sum, took)
}

fn time_week(rt: &(impl Print + Eprint + Clock), alloc: Global, nodes: u32) -> Result<()>
    requires { 0 < nodes }
{
    let mut out = Vec::with_capacity(alloc, nodes as usize)?;
    let wheel = shelved(alloc, nodes, 1, WEEK)?;
    let start = Instant::now(rt)?;
    let sum = ask_again(&wheel, 100, 0, WEEK as u64, &mut out);
    let took = start.elapsed(rt)?.as_nanos();
    report(rt, "due_over_a_week_at_once", sum, took)
}

/// Moves of nodes between lists, and what is due on the wheel.
pub fn run(rt: &(impl Print + Eprint + Clock), alloc: Global) -> Result<()> {
    time_moves(rt, alloc, NODES, LISTS)?;
    time_second(rt, alloc, NODES)?;
    time_each_second(rt, alloc, NODES)?;
    time_week(rt, alloc, NODES)
}
