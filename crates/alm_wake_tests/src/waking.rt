//! Whoever has a reply is woken: immediately, after its batch, or with the next one.

use crate::counter::{Counter, flags_of};
use alm_common_tests::{same, slot_of};
use alm_types::Slot;
use alm_wake::{FlusherPace, SequencerPace};
use std::test::Fail;
use std::time::Clock;

fn slot(number: u8) -> Result<Slot, Fail> {
    slot_of(number)
}

/// Seals this number of batches, and fetches the first.
fn seal<C: Clock>(
    clock: &C,
    sequencer: &mut SequencerPace<'_, Counter>,
    flusher: &mut FlusherPace<'_, Counter>,
    batches: u32,
) {
    for _ in 0..batches {
        sequencer.seal(clock);
    }
    flusher.fetch();
    flusher.publish();
}

#[test]
fn a_reply_wakes_its_slot_where_no_batch_waits(rt: HostRuntime) -> Result<(), Fail> {
    let (flags, counts) = flags_of(rt.alloc())?;
    let mut sequencer = SequencerPace::new(&flags);
    let mut flusher = FlusherPace::new(&flags);
    seal(&rt, &mut sequencer, &mut flusher, 1);
    flusher.release(slot(5)?);
    same((counts.of(slot(5)?), counts.all()), (1, 1))?;
    flusher.release(slot(17)?);
    same((counts.of(slot(17)?), counts.all()), (1, 2))?;
    flusher.answer();
    assert!(rt; !sequencer.is_stopped());
    same(counts.all(), 2)?;
    Ok(())
}

#[test]
fn a_batch_behind_it_delays_the_wakes_to_its_end(rt: HostRuntime) -> Result<(), Fail> {
    let (flags, counts) = flags_of(rt.alloc())?;
    let mut sequencer = SequencerPace::new(&flags);
    let mut flusher = FlusherPace::new(&flags);
    seal(&rt, &mut sequencer, &mut flusher, 2);
    flusher.release(slot(0)?);
    flusher.release(slot(3)?);
    flusher.release(slot(3)?);
    same(counts.all(), 0)?;
    flusher.answer();
    same(counts.all(), 0)?;
    assert!(rt; !sequencer.is_stopped());
    same(
        (counts.of(slot(0)?), counts.of(slot(3)?), counts.all()),
        (1, 1, 2),
    )?;
    Ok(())
}

#[test]
fn a_slot_with_many_replies_sleeps_through_one_batch_and_not_two(
    rt: HostRuntime,
) -> Result<(), Fail> {
    let (flags, counts) = flags_of(rt.alloc())?;
    let mut sequencer = SequencerPace::new(&flags);
    let mut flusher = FlusherPace::new(&flags);
    seal(&rt, &mut sequencer, &mut flusher, 4);
    for _ in 0..8 {
        flusher.release(slot(2)?);
    }
    for _ in 0..7 {
        flusher.release(slot(4)?);
    }
    flusher.answer();
    assert!(rt; !sequencer.is_stopped());
    same((counts.of(slot(2)?), counts.of(slot(4)?)), (0, 1))?;
    flusher.fetch();
    flusher.publish();
    for _ in 0..8 {
        flusher.release(slot(2)?);
    }
    flusher.answer();
    assert!(rt; !sequencer.is_stopped());
    same((counts.of(slot(2)?), counts.of(slot(4)?)), (1, 1))?;
    Ok(())
}

#[test]
fn a_slot_without_room_for_its_receipt_is_woken(rt: HostRuntime) -> Result<(), Fail> {
    let (flags, counts) = flags_of(rt.alloc())?;
    FlusherPace::new(&flags).find_full(slot(9)?);
    same((counts.of(slot(9)?), counts.all()), (1, 1))?;
    Ok(())
}

#[test]
fn a_stop_wakes_all(rt: HostRuntime) -> Result<(), Fail> {
    let (flags, counts) = flags_of(rt.alloc())?;
    let sequencer = SequencerPace::new(&flags);
    assert!(rt; !sequencer.is_stopped());
    flags.stop_all();
    same(
        (counts.of(slot(0)?), counts.of(slot(17)?), counts.all()),
        (1, 1, 18),
    )?;
    assert!(rt; sequencer.is_stopped());
    Ok(())
}
