//! Ends a run whose threads are joined.
ghost use Rattle.std.specs.Prelude.{◌≡◌, ◌↔◌, ℕ};
ghost use Rattle.alm_rings.specs.Batches.{AreBatchEnds, SameFetchEnds};
ghost use Rattle.alm_rings.specs.Placed.{SameOutboxAt, outbox_at};
ghost use Rattle.alm_seq.specs.Sequences.{live_base};
ghost use Rattle.alm_threads.specs.Histories.{JudgesAll};
ghost use Rattle.alm_threads.specs.Kept.{KeepsEnds};
ghost use Rattle.alm_threads.specs.Parts.{EndForCause, FailsForCause, HaveFlushed};
ghost use Rattle.alm_threads.specs.Slots.{AreTied};

use crate::closes::Closes;
use crate::ends::Ends;
use crate::finishing::finish;
use crate::flusher_parts::FlusherParts;
use crate::recorded_flusher::RecordedFlusher;
use crate::rings::Rings;
use alm_board::{Board, Publish};
use alm_model::Alarms;
use alm_moments::{Moments, RunId};
use alm_rings::{Console, Told};
use alm_seq::Sequencer;
use alm_store::Store;
use std::sync::Wait;

/// The ends of a sequencer. What went through them is one legal history.
fn rings_of<P: Alarms + Drop>(sequencer: Sequencer<P>) -> Rings
    ensures inboxes { result.inboxes ≡ sequencer.inboxes }
    ensures ends { result.ends ≡ sequencer.ends }
    ensures judged { JudgesAll (live_base sequencer) result.inboxes.items result.ends }
{
    // for the proof: the contract of `live` says that what was judged is one legal history
    let _live = sequencer.live();
    let (inboxes, ends) = sequencer.into_ends();
    Rings { inboxes, ends }
}

/// Closes the board, and returns the other parts of a flusher, and its history. Whatever a crash leaves of the device then encodes
/// what is stored, or that with the batch whose commit wasn't done. Before and after each of its calls it encoded a prefix of what
/// had been fetched by then, which reaches the moment's floor. At the end the floor reaches all that was released.
pub fn close_flusher<
    K: Store,
    T: Told + Drop,
    B: Board<Told = T> + Publish<R, Moments<J>> + Closes<R>,
    J: RunId,
    R: Wait,
>(rt: &R, flusher: RecordedFlusher<K, T, B, J>) -> (FlusherParts<K, T>, Moments<J>)
    requires base { (K.state flusher.first.value).stored ≡ B.Board.base flusher.flusher.board }
    requires honest { K.Device.honest (K.disk flusher.first.value) ↔
        K.Device.honest (K.disk flusher.flusher.store) }
    ensures parts { (result.0.store ≡ flusher.flusher.store) ×
        (result.0.outboxes ≡ flusher.flusher.outboxes) × (result.0.fetch ≡ flusher.flusher.fetch) }
    ensures moments { result.1 ≡ flusher.recorder }
    ensures flushed { HaveFlushed K.Store K.Device.Disk flusher.first.value result.1 result.0 }
{
    // for the proof: the contracts of `keeper` and `images` say what is stored, and what a crash leaves
    let stored = flusher.keeper();
    stored.images();
    let (board, parts, moments) = flusher.into_ends();
    // for the proof: the contract of `stands` says that the moments follow one another
    moments.stands();
    board.close(rt);
    (parts, moments)
}

/// Finishes what the threads of a run left, closes the board and returns all ends, which are in one thread.
pub fn end_run<
    K: Store,
    T: Told + Drop,
    B: Board<Told = T> + Publish<R, Moments<J>> + Closes<R>,
    J: RunId,
    P: Alarms + Drop,
    R: Wait,
>(
    rt: &R,
    consoles: Vec<Console<T>>,
    sequencer: Sequencer<P>,
    flusher: RecordedFlusher<K, T, B, J>,
) -> Ends<K, T, J>
    requires tied { AreTied consoles.items sequencer.inboxes.items flusher.flusher.outboxes.items }
    requires batches { AreBatchEnds sequencer.ends flusher.flusher.fetch }
    requires base { (K.state flusher.first.value).stored ≡ B.Board.base flusher.flusher.board }
    requires live { live_base sequencer ≡ B.Board.base flusher.flusher.board }
    requires honest { K.Device.honest (K.disk flusher.first.value) ↔
        K.Device.honest (K.disk flusher.flusher.store) }
    ensures ends { KeepsEnds consoles.items result.consoles.items sequencer.inboxes.items
        result.rings.inboxes.items sequencer.ends result.rings.ends }
    ensures judged { JudgesAll (live_base sequencer) result.rings.inboxes.items
        result.rings.ends }
    ensures outboxes { (s : ℕ) →
        SameOutboxAt (outbox_at s flusher.flusher.outboxes.items)
        (outbox_at s result.flusher.outboxes.items) }
    ensures fetch { SameFetchEnds flusher.flusher.fetch result.flusher.fetch }
    ensures flushed { HaveFlushed K.Store K.Device.Disk flusher.first.value result.moments
        result.flusher }
    ensures end { EndForCause K.Store K.Device.Disk result }
    ensures failed { FailsForCause K.Store K.Device.Disk result.cause flusher.first.value
        result.flusher.store }
{
    let (mut consoles, mut sequencer, mut flusher) = (consoles, sequencer, flusher);
    let cause = finish(rt, &mut consoles, &mut sequencer, &mut flusher);
    flusher.batches_beside(&mut sequencer.ends);
    let rings = rings_of(sequencer);
    let (flusher, moments) = close_flusher(rt, flusher);
    Ends {
        consoles,
        rings,
        flusher,
        moments,
        cause,
    }
}
