//! The parts over an opened store.
ghost use Rattle.std.specs.Prelude.{◌≡◌, ◌<◌, ◌≤◌, ◌^◌, [], length, IfOk, IfErr};
ghost use Rattle.alm_rings.specs.Placed.{AreApart};
ghost use Rattle.alm_shared.specs.SharedBoards.{board_shown, board_pending};
ghost use Rattle.alm_threads.specs.Slots.{AreNewConsoles};
ghost use Rattle.alm_types.specs.Sizes.{most_actions};
ghost use Rattle.alm_moments.specs.Naming.{IsNamedAfter};

use crate::flusher_parts::FlusherParts;
use crate::middle::Middle;
use crate::parts::Parts;
use crate::rings::Rings;
use crate::slots::open_some;
use crate::watched_look::{WatchedLook, watched};
use alm_disk::Hold;
use alm_history::NewHistory;
use alm_model::Alarms;
use alm_moments::{Moments, Recorder, RunId};
use alm_plant::Plant;
use alm_rings::{batches_beside, open_batches};
use alm_shared::{Durable, Growth, NewRun, SharedBoard, SharedLook, open_board};
use alm_store::{Phase, Store};
use alm_types::Slot;
use std::alloc::{AllocError, Global};
use std::sync::Wait;

// A board that shows this plant, and a look at it for each slot, which reports to the hold.
fn board_of<'h, J: RunId, P: Alarms + Drop, H: Hold, R: Wait>(
    rt: &R,
    alloc: Global,
    history: NewHistory<Growth>,
    moments: &Moments<J>,
    plant: P,
    slots: &[Slot],
    hold: &'h H,
) -> Result<(SharedBoard<J, P>, Vec<WatchedLook<'h, SharedLook<J, P>, H>>), AllocError>
    requires book { history.seen.book ≡ J.book }
    requires moments { moments.now ≡ [] }
    requires base { P.plant plant ≡ J.base }
    requires some { (0 < length slots.now) × (length slots.now < 2 ^ 32) }
    ensures published { IfOk result (λ r. board_shown r.0 ≡ []) }
    ensures pending { IfOk result (λ r. board_pending r.0 ≡ []) }
    ensures looks { IfOk result (λ r. length r.1.items ≡ length slots.now) }
{
    let (board, looks) = match open_board::<J, P>(alloc, history, moments, plant, slots.len()) {
        Ok(opened) => opened,
        Err(None) => return Err(AllocError),
        Err(Some(board)) => {
            drop(board.take(rt));
            return Err(AllocError);
        }
    };
    match watched(alloc, hold, slots, looks) {
        Ok(looks) => Ok((board, looks)),
        Err(fault) => {
            drop(board.take(rt));
            Err(fault)
        }
    }
}

// A plant's copy for the sequencer, and one for the board.
fn copies_of<P: Alarms + Drop>(alloc: Global, plant: &P) -> Result<(P, P), AllocError>
    ensures { IfOk result (λ r. (P.plant r.0 ≡ P.plant plant.now) × (P.plant r.1 ≡ P.plant plant.now)) }
{
    Ok((plant.copy(alloc)?, plant.copy(alloc)?))
}

/// The parts of a run for these slots, over an idle store; each look reports to the hold. The store is returned if out of memory, or
/// if somebody else has begun one of the run's histories, which never comes.
pub fn parts_of<'h, J: RunId, K: Store, H: Hold, R: Wait>(
    rt: &R,
    alloc: Global,
    new: NewRun,
    store: K,
    slots: Vec<Slot>,
    hold: &'h H,
) -> Result<
    Parts<Durable<J>, WatchedLook<'h, SharedLook<J, Plant>, H>, SharedBoard<J, Plant>, K, J>,
    K,
>
    requires books { (new.history.seen.book ≡ J.book) × (new.moments.seen.book ≡ J.moments) }
    requires named { IsNamedAfter J.RunId K.Store K.Device.Disk store }
    requires idle { (K.state store).phase ≡ Phase.Idle }
    requires limit { (K.state store).stored.panel.count ≤ most_actions }
    requires some { (0 < length slots.items) × (length slots.items < 2 ^ 32) }
    requires apart { AreApart (λ s. s) slots.items }
    ensures parts { IfOk result
        (λ parts. (parts.middle.flusher.store ≡ store) × (parts.slots ≡ slots) ×
        AreNewConsoles parts.consoles.items) }
    ensures refused { IfErr result (λ back. back ≡ store) }
{
    let NewRun { history, moments } = new;
    let Some(recorder) = Recorder::<J>::new(moments, &store) else {
        return Err(store);
    };
    let named = slots.as_slice();
    let Ok(slot_ends) = open_some(alloc, named) else {
        return Err(store);
    };
    let Ok((mut ends, mut fetch)) = open_batches(alloc) else {
        return Err(store);
    };
    batches_beside(&mut ends, &mut fetch);
    let Ok((plant, shown)) = copies_of(alloc, store.stored()) else {
        return Err(store);
    };
    let moments = recorder.moments();
    let Ok((board, looks)) = board_of::<J, Plant, H, R>(
        rt, alloc, history, &moments, shown, named, hold,
    ) else {
        return Err(store);
    };
    Ok(Parts {
        slots,
        consoles: slot_ends.consoles,
        looks,
        board,
        middle: Middle {
            plant,
            rings: Rings {
                inboxes: slot_ends.inboxes,
                ends,
            },
            flusher: FlusherParts {
                store,
                outboxes: slot_ends.outboxes,
                fetch,
            },
            recorder,
        },
    })
}
