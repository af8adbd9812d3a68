//! Benchmarks. Each line: what was done, and a sum over it; on standard error nanoseconds too.
//!
//! | words | what is timed |
//! |---|---|
//! | none | all of it that needs no file |
//! | `codec`, `links`, `measure`, `plant`, `segment` | the part of that name |
//! | `rings [REQUESTS]` | REQUESTS requests through a slot's rings, 100,000 by default |
//! | `flusher [FILE]`, `keeper [FILE]` | the part of that name, and commits to a file |
//! | `open FILE` | opening the device in a file, once |
//! | `threads FILE` | the server's threads over a file |
//!
//! The scripts in `bench/` compare them with plain programs. Of the run without words the sums are stored.
#![tactic(auto)]

mod benchmark;
mod codec;
mod flusher;
mod keeper;
mod links;
mod measure;
mod plant;
mod report;
mod rings;
mod segment;
mod threads;

use anyhow::{Result, anyhow};
use benchmark::Benchmark;
use std::env;
use std::fs::{File, Files};
use std::rt::Clock;
use std::sync::Wait;
use std::thread::Threads;

/// How many requests pass through the rings by default.
const REQUESTS: u64 = 100_000;

/// How many requests a word says.
fn requests(word: Option<&str>) -> u64 {
    match word {
        Some(word) => word.parse::<u64>().unwrap_or(REQUESTS),
        None => REQUESTS,
    }
}

/// Runs a benchmark; the word is its file, or how many requests it has.
fn run(
    rt: &(impl Print + Eprint + Clock + Files<File = File> + AllocGlobal + Threads + Wait + Sync),
    benchmark: Benchmark,
    word: Option<&str>,
) -> Result<()> {
    let alloc = rt.alloc();
    match benchmark {
        Benchmark::Codec => codec::run(rt, alloc),
        Benchmark::Flusher => flusher::run(rt, alloc, word),
        Benchmark::Keeper => keeper::run(rt, alloc, word),
        Benchmark::Links => links::run(rt, alloc),
        Benchmark::Measure => measure::run(rt, alloc),
        Benchmark::Open => match word {
            Some(path) => keeper::open(rt, alloc, path),
            None => Err(anyhow!("open: name a device")),
        },
        Benchmark::Plant => plant::run(rt, alloc),
        Benchmark::Rings => rings::run(rt, alloc, requests(word)),
        Benchmark::Segment => segment::run(rt, alloc),
        Benchmark::Threads => match word {
            Some(path) => threads::run(rt, alloc, path),
            None => Err(anyhow!("threads: name a file")),
        },
    }
}

/// Those that need no file.
const ALL: [Benchmark; 8] = [
    Benchmark::Codec,
    Benchmark::Flusher,
    Benchmark::Keeper,
    Benchmark::Links,
    Benchmark::Measure,
    Benchmark::Plant,
    Benchmark::Segment,
    Benchmark::Rings,
];

fn run_all(
    rt: &(impl Print + Eprint + Clock + Files<File = File> + AllocGlobal + Threads + Wait + Sync),
) -> Result<()> {
    for benchmark in ALL {
        run(rt, benchmark, None)?;
    }
    Ok(())
}

/// Runs the benchmark of a name.
fn run_named(
    rt: &(impl Print + Eprint + Clock + Files<File = File> + AllocGlobal + Threads + Wait + Sync),
    name: &str,
    word: Option<&str>,
) -> Result<()> {
    match Benchmark::of(name) {
        Some(benchmark) => run(rt, benchmark, word),
        None => Err(anyhow!("there is no such benchmark")),
    }
}

fn main(rt: HostRuntime) -> Result<()> {
    let Some(name) = env::args(&rt)?.nth(1) else {
        return run_all(&rt);
    };
    match env::args(&rt)?.nth(2) {
        Some(word) => run_named(&rt, name.as_str(), Some(word.as_str())),
        None => run_named(&rt, name.as_str(), None),
    }
}
