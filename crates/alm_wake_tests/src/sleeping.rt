//! A thread without work sleeps, and a ring ends its sleep.

use crate::counter::flags_of;
use alm_common_tests::{holds_at, slot_of};
use alm_wake::{Bell, FlusherPace, SequencerPace, ThreadBell};
use std::alloc::Global;
use std::sync::Wait;
use std::test::Fail;
use std::time::{Clock, Instant};

/// The number of turns without work in which a thread first yields, and then begins to listen.
const LISTENS: u32 = 9;

/// The least time of a whole sleep, and the most of one that was ended, in milliseconds. A sleep takes 100.
const ASLEEP: u128 = 90;

const WOKEN: u128 = 60;

/// How often what is woken is tried: on a busy machine it may be late.
const TRIES: u32 = 5;

/// How long ago that was, in milliseconds.
fn millis_since<C: Clock>(clock: &C, began: Instant) -> Result<u128, Fail> {
    Ok(began.elapsed(clock).map_err(|_| "clock")?.as_millis())
}

/// How long a thread waits by a bell that was rung before, or wasn't, in milliseconds.
fn waited<R: Wait + Clock>(rt: &R, is_rung: bool) -> Result<u128, Fail> {
    let bell = ThreadBell::new();
    for idle in 0..LISTENS {
        bell.wait(rt, idle);
    }
    let began = Instant::now(rt).map_err(|_| "clock")?;
    if is_rung {
        bell.ring();
        bell.wait(rt, LISTENS);
    }
    bell.wait(rt, LISTENS);
    millis_since(rt, began)
}

/// How long the sequencer's thread waits once a slot has sent, in milliseconds.
fn waited_for_a_slot<R: Wait + Clock>(rt: &R, alloc: Global) -> Result<u128, Fail> {
    let (flags, _counts) = flags_of(alloc)?;
    let mut pace = SequencerPace::new(&flags);
    for _ in 0..LISTENS {
        pace.wait(rt);
    }
    let began = Instant::now(rt).map_err(|_| "clock")?;
    flags.send(slot_of(3)?);
    pace.wait(rt);
    pace.wait(rt);
    millis_since(rt, began)
}

/// How long the flusher's thread waits once a batch is sealed, and after that, in milliseconds.
fn waited_for_a_batch<R: Wait + Clock>(rt: &R, alloc: Global) -> Result<(u128, u128), Fail> {
    let (flags, _counts) = flags_of(alloc)?;
    let mut sequencer = SequencerPace::new(&flags);
    let mut pace = FlusherPace::new(&flags);
    for _ in 0..LISTENS {
        pace.wait(rt);
    }
    let began = Instant::now(rt).map_err(|_| "clock")?;
    sequencer.seal(rt);
    pace.wait(rt);
    pace.wait(rt);
    let woken = millis_since(rt, began)?;
    let slept = Instant::now(rt).map_err(|_| "clock")?;
    pace.wait(rt);
    pace.wait(rt);
    Ok((woken, millis_since(rt, slept)?))
}

#[test]
fn a_thread_sleeps_until_its_bell_is_rung(rt: HostRuntime) -> Result<(), Fail> {
    assert!(rt; waited(&rt, false)? >= ASLEEP);
    let mut least = u128::MAX;
    for _ in 0..TRIES {
        least = least.min(waited(&rt, true)?);
    }
    holds_at(least, least <= WOKEN)?;
    Ok(())
}

#[test]
fn the_sequencers_thread_sleeps_without_work(rt: HostRuntime) -> Result<(), Fail> {
    let (flags, _counts) = flags_of(rt.alloc())?;
    let mut pace = SequencerPace::new(&flags);
    let began = Instant::now(&rt).map_err(|_| "clock")?;
    for _ in 0..LISTENS + 1 {
        pace.wait(&rt);
    }
    assert!(rt; millis_since(&rt, began)? >= ASLEEP);
    Ok(())
}

#[test]
fn a_slot_that_sends_wakes_the_sequencers_thread(rt: HostRuntime) -> Result<(), Fail> {
    let mut least = u128::MAX;
    for _ in 0..TRIES {
        least = least.min(waited_for_a_slot(&rt, rt.alloc())?);
    }
    holds_at(least, least <= WOKEN)?;
    Ok(())
}

#[test]
fn the_flushers_thread_sleeps_until_a_batch_is_sealed(rt: HostRuntime) -> Result<(), Fail> {
    let mut least = u128::MAX;
    for _ in 0..TRIES {
        let (woken, slept) = waited_for_a_batch(&rt, rt.alloc())?;
        holds_at(slept, slept >= ASLEEP)?;
        least = least.min(woken);
    }
    holds_at(least, least <= WOKEN)?;
    Ok(())
}
