//! An open checkpoint continues while nobody asks, and not while a batch is about to come.

use crate::counter::flags_of;
use alm_common_tests::slot_of;
use alm_wake::{FlusherPace, SequencerPace};
use std::test::Fail;

/// A number of turns in a row without work, in the last of which the thread has slept.
const RESTS: u32 = 10;

#[test]
fn a_checkpoint_continues_once_the_thread_has_slept(rt: HostRuntime) -> Result<(), Fail> {
    let (flags, _counts) = flags_of(rt.alloc())?;
    let mut pace = FlusherPace::new(&flags);
    assert!(rt; !pace.has_rest());
    for _ in 0..RESTS {
        pace.wait(&rt);
    }
    assert!(rt; pace.has_rest());
    pace.work();
    assert!(rt; !pace.has_rest());
    Ok(())
}

#[test]
fn no_piece_goes_out_before_a_batch_that_is_about_to_come(rt: HostRuntime) -> Result<(), Fail> {
    let (flags, _counts) = flags_of(rt.alloc())?;
    let slot = slot_of(0)?;
    let mut sequencer = SequencerPace::new(&flags);
    let mut pace = FlusherPace::new(&flags);
    for _ in 0..RESTS {
        pace.wait(&rt);
    }
    sequencer.join(slot);
    sequencer.seal(&rt);
    sequencer.await_slots(&rt);
    flags.send(slot);
    assert!(rt; !pace.has_rest());
    assert!(rt; pace.stays_awake());
    Ok(())
}
