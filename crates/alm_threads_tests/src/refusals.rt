//! Publishes that are refused: the flusher's thread tries one a thousand times.

ghost use Rattle.std.specs.Prelude.{◌≡◌};
ghost use Rattle.alm_moments.specs.Naming.{IsNamedAfter};

use crate::devices::formatted;
use alm_board::{Board, PlainBoard, PlainTold, Publish, Voucher};
use alm_common_tests::same_at;
use alm_desk::worked_table;
use alm_disk::MemDisk;
use alm_history::NewHistory;
use alm_keeper::Keeper;
use alm_model::Alarms;
use alm_moments::{RecordedMoment, Recorder, RunId};
use alm_plant::Plant;
use alm_rings::{SealEnds, SlotEnds, batches_beside, open_batches, open_slots};
use alm_store::{Phase, Store};
use alm_threads::{Closes, RecordedFlusher, close_flusher, flush};
use alm_types::{Action, Batch, Entry, Moment, Slot, Verdict, Want};
use alm_wake::{Bells, Flags, Healing, ThreadBell};
use std::alloc::{AllocError, Global};
use std::marker::Brand;
use std::sync::Wait;
use std::test::Fail;

/// A board that refuses its first publishes.
#[derive(Drop)]
struct RefusingBoard {
    board: PlainBoard<Plant>,
    refusals: u64,
}

impl Board for RefusingBoard {
    type Told = PlainTold;

    ghost base = { λ b. ⟦<PlainBoard<Plant> as Board>⟧.base b.board };

    ghost published = { λ b. ⟦<PlainBoard<Plant> as Board>⟧.published b.board };

    ghost logged = { λ b. ⟦<PlainBoard<Plant> as Board>⟧.logged b.board };

    ghost pending = { λ b. ⟦<PlainBoard<Plant> as Board>⟧.pending b.board };

    fn tell(&self) -> PlainTold {
        self.board.tell()
    }
}

impl<C, V: Voucher> Publish<C, V> for RefusingBoard {
    ghost sure = { ⊥ };

    fn publish(&mut self, _by: &C, _voucher: &V, batch: &Batch) -> Result<(), AllocError> {
        if self.refusals > 0 {
            self.refusals -= 1;
            return Err(AllocError);
        }
        <PlainBoard<Plant> as Publish<(), ()>>::publish(&mut self.board, &(), &(), batch)
    }
}

impl<C> Closes<C> for RefusingBoard {
    fn close(self, _by: &C) {}
}

/// Whether this many actions of the clock are sent to the flusher in one batch, as if its slot had asked for them.
pub fn seals(ends: &mut SealEnds, clock: Slot, size: u16) -> bool {
    let Some(mut batch) = ends.empty() else {
        return false;
    };
    for serial in 1..=size {
        let serial = serial as u64;
        let Some(moment) = Moment::new(1000 * serial) else {
            return false;
        };
        if batch.is_full() {
            return false;
        }
        batch.push(Entry {
            slot: clock,
            serial,
            want: Want::Do(Action::Clock(moment)),
            verdict: Verdict::Accepted(Action::Clock(moment)),
        });
    }
    ends.seal(batch).is_ok()
}

/// What a run of the flusher leaves if its board refuses a number of publishes of one batch. It is the number that its
/// slot receives, if any, whether all threads are to stop, and the store.
fn told_behind<J: RunId, K: Store, R: Wait>(
    rt: &R,
    alloc: Global,
    new: NewHistory<RecordedMoment>,
    store: K,
    refusals: u64,
    healing: &Healing,
) -> Option<(Option<u64>, bool, K)>
    requires book { new.seen.book ≡ J.moments }
    requires named { IsNamedAfter J.RunId K.Store K.Device.Disk store }
    requires idle { (K.state store).phase ≡ Phase.Idle }
{
    let recorder = Recorder::<J>::new(new, &store)?;
    let clock = Slot::new(17)?;
    let Ok(shown) = store.stored().copy(alloc) else {
        return None;
    };
    let Ok(slot_ends) = open_slots(alloc) else {
        return None;
    };
    let Ok((mut ends, mut fetch)) = open_batches(alloc) else {
        return None;
    };
    batches_beside(&mut ends, &mut fetch);
    if !seals(&mut ends, clock, 1) {
        return None;
    }
    let flags = Flags::<ThreadBell>::new(Bells::new(&[], Vec::new(alloc)));
    flags.end_sealing();
    let board = RefusingBoard {
        board: PlainBoard::new(shown),
        refusals,
    };
    let SlotEnds {
        mut consoles,
        inboxes: _,
        outboxes,
    } = slot_ends;
    let mut flusher = RecordedFlusher::new(store, board, outboxes, fetch, recorder);
    flush(rt, &flags, healing, &mut flusher);
    let (parts, _moments) = close_flusher(rt, flusher);
    let told = match consoles.get_mut(17) {
        Some(console) => console.receive().map(|receipt| receipt.number),
        None => None,
    };
    Some((told, flags.is_stopped(), parts.store))
}

/// The same over a new device.
fn told_on_new<R: Wait>(rt: &R, alloc: Global, refusals: u64) -> Option<(Option<u64>, bool)> {
    let table = worked_table(alloc).ok()?;
    let disk = formatted(alloc, &table)?;
    let (told, stopped, store) = told_on::<Keeper<MemDisk>, R>(
        rt,
        alloc,
        disk,
        refusals,
        &Healing::new(),
    )?;
    drop(store);
    Some((told, stopped))
}

/// The same over a device, and the store.
pub fn told_on<K: Store, R: Wait>(
    rt: &R,
    alloc: Global,
    disk: K::Device,
    refusals: u64,
    healing: &Healing,
) -> Option<(Option<u64>, bool, K)> {
    match K::open(alloc, disk) {
        Ok(store) => {
            let new = NewHistory::new();
            told_behind::<Brand, K, R>(rt, alloc, new, store, refusals, healing)
        }
        Err(_) => None,
    }
}

#[test]
fn a_publish_is_tried_a_thousand_times(rt: HostRuntime) -> Result<(), Fail> {
    for (refusals, told) in [
        (0, (Some(1), false)),
        (999, (Some(1), false)),
        (1000, (None, true)),
    ] {
        same_at(refusals, told_on_new(&rt, rt.alloc(), refusals), Some(told))?;
    }
    Ok(())
}
