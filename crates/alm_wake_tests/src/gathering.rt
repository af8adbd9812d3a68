//! An open batch waits for the slots that the last one answered, for as long as it may.

use crate::counter::flags_of;
use alm_common_tests::{holds_at, same, slot_of};
use alm_wake::{Bell, FlusherPace, Sealing, SequencerPace, ThreadBell};
use std::sync::Wait;
use std::test::Fail;
use std::time::Instant;

/// The number of turns without work, in the last of which a thread sleeps.
const TURNS: u32 = 10;

/// The longest pause, and a time that shows that one was waited, in microseconds.
const PAUSE: u64 = 500;

const WAITED: u128 = 400;

/// Lets 100 milliseconds pass.
fn sleep<R: Wait>(rt: &R) {
    let bell = ThreadBell::new();
    for idle in 0..TURNS {
        bell.wait(rt, idle);
    }
}

#[test]
fn a_batch_that_is_back_lets_the_next_wait_for_its_slots(rt: HostRuntime) -> Result<(), Fail> {
    let (flags, _counts) = flags_of(rt.alloc())?;
    let mut sequencer = SequencerPace::new(&flags);
    let flusher = FlusherPace::new(&flags);
    sequencer.join(slot_of(3)?);
    sequencer.seal(&rt);
    same(sequencer.sealing(&rt, false), Sealing::Later)?;
    sleep(&rt);
    flusher.empty();
    let Sealing::After(pause) = sequencer.sealing(&rt, false) else {
        return Err("no pause".into());
    };
    same(pause.micros(), PAUSE)?;
    let began = Instant::now(&rt).map_err(|_| "clock")?;
    sequencer.await_slots(&rt);
    sequencer.gather(&rt, pause, false);
    let waited = began.elapsed(&rt).map_err(|_| "clock")?.as_micros();
    holds_at(waited, waited >= WAITED)?;
    same(sequencer.sealing(&rt, false), Sealing::Now)?;
    Ok(())
}

#[test]
fn a_full_batch_waits_for_nobody(rt: HostRuntime) -> Result<(), Fail> {
    let (flags, _counts) = flags_of(rt.alloc())?;
    let mut sequencer = SequencerPace::new(&flags);
    sequencer.join(slot_of(3)?);
    sequencer.seal(&rt);
    same(sequencer.sealing(&rt, true), Sealing::Now)?;
    Ok(())
}
