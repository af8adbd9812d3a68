//! The sequencer's thread.
ghost use Rattle.std.specs.Prelude.{◌≡◌, IsSome};
ghost use Rattle.alm_rings.specs.Batches.{SameSealEnds};
ghost use Rattle.alm_rings.specs.Placed.{inbox_at};
ghost use Rattle.alm_seq.specs.Sequences.{SameInboxes, live_base};
ghost use Rattle.alm_threads.specs.Serving.{ServesSlots};

use alm_disk::Hold;
use alm_model::Alarms;
use alm_seq::{Seal, Sequencer, Take};
use alm_types::{MOST_ENTRIES, SLOTS, Slot};
use alm_wake::{Bell, Flags, Pause, Sealing, SequencerPace};
use std::sync::Wait;
use std::time::Clock;

/// How many requests of a slot are taken in a row at most: its share of a batch, so that one round finds room for all slots. What
/// such requests have in common is in the cache for the next one, in each thread that the batch passes through.
const SHARE: usize = MOST_ENTRIES / SLOTS;

// What a pass over the slots found.
#[derive(Clone, Copy, Debug, PartialEq, Eq)]
enum Found {
    Nothing,
    Some,
    Full,
}

// What a pass left.
#[derive(Debug, Drop, PartialEq, Eq)]
enum Left {
    // Something was taken or sealed.
    Work,
    // Others are to join the open batch, which may wait for them.
    Awaiting(Pause),
    // Nothing, and the open batch has entries.
    Waiting,
    // Nothing, and the open batch is empty.
    Empty,
}

// Takes requests of a slot, up to its share of a batch in a row, and informs the hold of each.
fn take_share<P: Alarms + Drop, B: Bell + Drop, H: Hold>(
    sequencer: &mut Sequencer<P>,
    slot: Slot,
    hold: &H,
    pace: &mut SequencerPace<'_, B>,
) -> Found
    requires { IsSome (inbox_at slot sequencer.old.inboxes.items) }
    ensures inboxes { SameInboxes sequencer.old.inboxes.items sequencer.new.inboxes.items }
    ensures ends { SameSealEnds sequencer.old.ends sequencer.new.ends }
    ensures base { live_base sequencer.new ≡ live_base sequencer.old }
{
    let mut found = Found::Nothing;
    for _ in 0..SHARE {
        match sequencer.take(slot) {
            Take::Taken(_) => {
                found = Found::Some;
                pace.join(slot);
                hold.taken(slot);
            }
            Take::Empty => break,
            Take::BatchFull => return Found::Full,
        }
    }
    found
}

// Takes requests of each slot, up to its share of a batch.
fn go_round<P: Alarms + Drop, B: Bell + Drop, H: Hold>(
    sequencer: &mut Sequencer<P>,
    slots: &[Slot],
    hold: &H,
    pace: &mut SequencerPace<'_, B>,
) -> Found
    requires { ServesSlots slots.now sequencer.old.inboxes.items }
    ensures serves { ServesSlots slots.now sequencer.new.inboxes.items }
    ensures inboxes { SameInboxes sequencer.old.inboxes.items sequencer.new.inboxes.items }
    ensures ends { SameSealEnds sequencer.old.ends sequencer.new.ends }
    ensures base { live_base sequencer.new ≡ live_base sequencer.old }
{
    let mut found = Found::Nothing;
    for slot in slots {
        match take_share(sequencer, *slot, hold, pace) {
            Found::Nothing => {}
            Found::Some => found = Found::Some,
            Found::Full => return Found::Full,
        }
    }
    found
}

// Waits until the slots have come that the open batch awaits, for one pause at most.
fn gather<P: Alarms + Drop, B: Bell + Drop, H: Hold, R: Wait + Clock>(
    rt: &R,
    sequencer: &mut Sequencer<P>,
    slots: &[Slot],
    hold: &H,
    pace: &mut SequencerPace<'_, B>,
    pause: Pause,
)
    requires { ServesSlots slots.now sequencer.old.inboxes.items }
    ensures serves { ServesSlots slots.now sequencer.new.inboxes.items }
    ensures inboxes { SameInboxes sequencer.old.inboxes.items sequencer.new.inboxes.items }
    ensures ends { SameSealEnds sequencer.old.ends sequencer.new.ends }
    ensures base { live_base sequencer.new ≡ live_base sequencer.old }
{
    pace.await_slots(rt);
    // A slot that came before that woke no thread.
    let found = go_round(sequencer, slots, hold, pace);
    pace.gather(rt, pause, found == Found::Full);
}

// Seals the open batch, if it has entries and there is room for it.
fn seal<P: Alarms + Drop, B: Bell + Drop, C: Clock>(
    clock: &C,
    sequencer: &mut Sequencer<P>,
    pace: &mut SequencerPace<'_, B>,
) -> Left
    ensures inboxes { sequencer.new.inboxes ≡ sequencer.old.inboxes }
    ensures ends { SameSealEnds sequencer.old.ends sequencer.new.ends }
    ensures base { live_base sequencer.new ≡ live_base sequencer.old }
{
    match sequencer.seal() {
        Seal::Sealed => {
            pace.seal(clock);
            Left::Work
        }
        Seal::NothingToSeal => Left::Empty,
        Seal::NoRoom => Left::Waiting,
    }
}

// Seals if no batch is out and no slot is to be waited for, or the open one is full.
fn seal_some<P: Alarms + Drop, B: Bell + Drop, C: Clock>(
    clock: &C,
    sequencer: &mut Sequencer<P>,
    pace: &mut SequencerPace<'_, B>,
    found: Found,
) -> Left
    ensures inboxes { sequencer.new.inboxes ≡ sequencer.old.inboxes }
    ensures ends { SameSealEnds sequencer.old.ends sequencer.new.ends }
    ensures base { live_base sequencer.new ≡ live_base sequencer.old }
{
    let left = match pace.sealing(clock, found == Found::Full) {
        Sealing::After(pause) => return Left::Awaiting(pause),
        Sealing::Now => seal(clock, sequencer, pace),
        Sealing::Later => Left::Waiting,
    };
    if found == Found::Some {
        return Left::Work;
    }
    left
}

/// Takes, judges and seals until all sources have ended and no work is left, or all threads are to stop. It seals if no batch is
/// out and the slots that the last one answered have asked again. It also seals if half of the time that the last one took has
/// passed since it came back, or 500 microseconds, or if the open batch is full. The hold is informed of each request that is
/// taken.
pub fn sequence<P: Alarms + Drop, B: Bell + Drop, H: Hold, R: Wait + Clock>(
    rt: &R,
    flags: &Flags<B>,
    slots: &[Slot],
    hold: &H,
    sequencer: Sequencer<P>,
) -> Sequencer<P>
    requires { ServesSlots slots.now sequencer.inboxes.items }
    ensures inboxes { SameInboxes sequencer.inboxes.items result.inboxes.items }
    ensures ends { SameSealEnds sequencer.ends result.ends }
    ensures base { live_base result ≡ live_base sequencer }
{
    let mut sequencer = sequencer;
    let mut pace = SequencerPace::new(flags);
    for _ in rt.forever() {
        if pace.is_stopped() {
            break;
        }
        let last = pace.have_ended(slots.len());
        let found = go_round(&mut sequencer, slots, hold, &mut pace);
        match seal_some(rt, &mut sequencer, &mut pace, found) {
            Left::Work => pace.work(),
            Left::Awaiting(pause) => {
                gather(rt, &mut sequencer, slots, hold, &mut pace, pause);
            }
            Left::Empty if last => break,
            Left::Empty | Left::Waiting => pace.wait(rt),
        }
    }
    pace.end();
    sequencer
}
