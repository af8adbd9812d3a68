//! The ends of the batch rings.

use crate::one::ack;
use alm_rings::{FetchEnds, SealEnds, batches_beside, open_batches};
use alm_types::{Batch, Entry, Refusal, Slot, Verdict};
use std::process::Abort;
use std::test::Fail;

/// Takes all eight batches, and leaves the last.
fn last_of_eight(rt: &impl Abort, ends: &mut SealEnds) -> Option<Batch> {
    let mut last = None;
    for _ in 0..8 {
        last = ends.empty();
        assert!(rt; last.is_some());
    }
    assert!(rt; ends.empty().is_none(), "there are eight");
    last
}

/// Fills an empty batch, and shows that it takes 256 entries.
fn fill(rt: &impl Abort, batch: &mut Batch, slot: Slot) {
    assert_eq!(rt; batch.entries().len(), 0);
    for serial in 1..=256 {
        assert!(rt; !batch.is_full(), "at {serial}");
        let verdict = Verdict::Refused(Refusal::NoSuchAlarm, 0);
        batch.push(Entry {
            slot,
            serial,
            want: ack(serial),
            verdict,
        });
    }
    assert!(rt; batch.is_full());
}

fn goes_round(
    rt: &impl Abort,
    seal: &mut SealEnds,
    fetch: &mut FetchEnds,
    batch: Batch,
) -> Option<Batch> {
    assert!(rt; fetch.fetch().is_none(), "nothing sealed");
    assert!(rt; seal.seal(batch).is_ok());
    let batch = fetch.fetch()?;
    assert_eq!(rt; batch.entries().len(), 256);
    assert_eq!(rt; batch.entries().last().map(|entry| entry.serial), Some(256));
    assert!(rt; fetch.give_back(batch).is_ok());
    seal.empty()
}

#[test]
fn a_batch_goes_round_and_is_filled_again(rt: HostRuntime) -> Result<(), Fail> {
    let slot = Slot::new(3).ok_or("slot")?;
    let (mut seal, mut fetch) = open_batches(rt.alloc())?;
    let mut batch = last_of_eight(&rt, &mut seal).ok_or("batch")?;
    for _ in 0..3 {
        fill(&rt, &mut batch, slot);
        batch = goes_round(&rt, &mut seal, &mut fetch, batch).ok_or("batch")?;
    }
    Ok(())
}

#[test]
fn eight_batches_may_be_sealed(rt: HostRuntime) -> Result<(), Fail> {
    let (mut seal, mut fetch) = open_batches(rt.alloc())?;
    for first in 1..=8 {
        let mut batch = seal.empty().ok_or("batch")?;
        batch.restart(first);
        assert!(rt; seal.seal(batch).is_ok());
    }
    assert!(rt; seal.empty().is_none());
    let mut ninth = Batch::new(rt.alloc())?;
    ninth.restart(9);
    match seal.seal(ninth) {
        Ok(()) => assert!(rt; false, "no place"),
        Err(batch) => assert_eq!(rt; batch.first(), 9),
    }
    for first in 1..=8 {
        let batch = fetch.fetch().ok_or("batch")?;
        assert_eq!(rt; batch.first(), first);
        assert!(rt; fetch.give_back(batch).is_ok());
    }
    assert!(rt; fetch.fetch().is_none());
    let ninth = Batch::new(rt.alloc())?;
    assert!(rt; fetch.give_back(ninth).is_err(), "no place");
    Ok(())
}

#[test]
fn nine_batches_are_sealed_one_after_the_other(rt: HostRuntime) -> Result<(), Fail> {
    let (mut seal, mut fetch) = open_batches(rt.alloc())?;
    for first in 1..=9 {
        let mut batch = seal.empty().ok_or("batch")?;
        batch.restart(first);
        assert!(rt; seal.seal(batch).is_ok(), "at {first}");
        let batch = fetch.fetch().ok_or("batch")?;
        assert_eq!(rt; batch.first(), first);
        assert!(rt; fetch.give_back(batch).is_ok(), "at {first}");
    }
    Ok(())
}

#[test]
fn beside_tells_of_sealed_batches(rt: HostRuntime) -> Result<(), Fail> {
    let (mut seal, mut fetch) = open_batches(rt.alloc())?;
    let batch = Batch::new(rt.alloc())?;
    assert!(rt; seal.seal(batch).is_ok());
    assert!(rt; !fetch.waits(), "not told");
    batches_beside(&mut seal, &mut fetch);
    assert!(rt; fetch.waits(), "told");
    Ok(())
}
