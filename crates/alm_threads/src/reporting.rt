//! What a run reports.
ghost use Rattle.std.specs.Prelude.{◌≡◌, ◌≢◌, ◌↔◌, ◌≤◌, [], vec_len, vec_capacity, IsTrue};
ghost use mathlib.Core.List.{IsPrefix};
ghost use Rattle.alm_rings.specs.Batches.{AreBatchEnds, fetched_of, sealed_of};
ghost use Rattle.alm_rings.specs.Placed.{AreApart};
ghost use Rattle.alm_threads.specs.Answered.{AllAnswered, IsSlotAnswered};
ghost use Rattle.alm_threads.specs.Parts.{EndForCause};
ghost use Rattle.alm_threads.specs.Runs.{AreClosed};
ghost use Rattle.alm_threads.specs.Slots.{AreTied};

use crate::closing::close_all;
use crate::ends::Ends;
use crate::flusher_parts::FlusherParts;
use crate::report::RunReport;
use crate::rings::Rings;
use crate::storage::Storage;
use alm_moments::RunId;
use alm_rings::{SlotReport, Told, batches_beside};
use alm_store::{Phase, Store};
use std::snapshot::Snapshot;

// Whether all that was sent was taken, and all that was taken was answered.
fn is_answered(slot: &Option<SlotReport>) -> bool
    ensures { IsTrue result ↔ IsSlotAnswered slot.now }
{
    match slot {
        Some(report) => report.sent == report.taken && report.taken == report.released,
        None => false,
    }
}

// Whether that is so of each slot.
fn are_answered(slots: &[Option<SlotReport>]) -> bool
    ensures { IsTrue result ↔ AllAnswered slots.now }
{
    for slot in slots {
        if !is_answered(slot) {
            return false;
        }
    }
    true
}

// The run is whole exactly if the store has not stopped and no request or receipt is left.
fn storage_of(phase: Phase, is_answered: bool) -> Storage
    ensures whole { result ≡ Storage.Whole → (phase ≢ Phase.Stopped) × IsTrue is_answered }
    ensures stopped { phase ≢ Phase.Stopped → IsTrue is_answered → result ≡ Storage.Whole }
{
    if is_answered && phase != Phase::Stopped {
        Storage::Whole
    } else {
        Storage::Stopped
    }
}

/// Closes all rings, and says what went through them.
pub fn report_of<K: Store, T: Told + Drop, J: RunId>(
    ends: Ends<K, T, J>,
    room: Vec<Option<SlotReport>>,
) -> RunReport<K, T, J>
    requires tied { AreApart (λ c. c.slot) ends.consoles.items ×
        AreTied ends.consoles.items ends.rings.inboxes.items ends.flusher.outboxes.items }
    requires batches { AreBatchEnds ends.rings.ends ends.flusher.fetch }
    requires end { EndForCause K.Store K.Device.Disk ends }
    requires room { (room.items ≡ []) × (vec_len ends.consoles ≤ vec_capacity room) }
    ensures parts { (result.keeper ≡ ends.flusher.store) × (result.moments ≡ ends.moments) ×
        (result.consoles.value ≡ ends.consoles) }
    ensures closed { AreClosed ends.consoles.items ends.rings.inboxes.items
        ends.flusher.outboxes.items result.slots.items }
    ensures fetched { IsPrefix (fetched_of ends.flusher.fetch) (sealed_of ends.rings.ends) }
    ensures cause { result.storage ≡ Storage.Stopped → result.cause ≡ ends.cause }
{
    let Ends {
        consoles,
        rings,
        flusher,
        moments,
        cause,
    } = ends;
    let Rings { inboxes, mut ends } = rings;
    let FlusherParts {
        store,
        outboxes,
        mut fetch,
    } = flusher;
    batches_beside(&mut ends, &mut fetch);
    let closed = Snapshot::of(&consoles);
    let slots = close_all(consoles, inboxes, outboxes, room);
    let storage = storage_of(store.phase(), are_answered(&slots));
    let cause = match storage {
        Storage::Whole => None,
        Storage::Stopped => cause,
    };
    RunReport {
        keeper: store,
        storage,
        slots,
        consoles: closed,
        cause,
        moments,
    }
}
