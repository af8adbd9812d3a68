//! A run.
ghost use Rattle.std.specs.Prelude.{◌≡◌, ◌≤◌, ℕ, [], length, map, slice_get, Some, vec_len, vec_capacity, IfErr, IfOk};
ghost use Rattle.alm_threads.specs.Parts.{AreBack};
ghost use Rattle.alm_threads.specs.Runs.{IsRunOver};
ghost use Rattle.alm_threads.specs.Serving.{ServesSlots};
ghost use Rattle.alm_threads.specs.Slots.{AreTied};
ghost use Rattle.alm_threads.specs.Sources.{AllAccount, source_state, states_of};

use crate::closes::Closes;
use crate::closing_board::ClosingBoard;
use crate::ending::end_run;
use crate::flusher_parts::FlusherParts;
use crate::flushing::flush;
use crate::joined_ends::JoinedEnds;
use crate::joined_threads::JoinedThreads;
use crate::middle::Middle;
use crate::not_started::NotStarted;
use crate::parts::Parts;
use crate::recorded_flusher::RecordedFlusher;
use crate::reporting::report_of;
use crate::run_end::RunEnd;
use crate::slot_parts::{SlotParts, slot_parts_of};
use crate::source::Source;
use crate::start::{join_all, start_all};
use crate::start_fault::StartFault;
use crate::starting::start_sequencer;
use alm_board::{Board, Look, Publish};
use alm_disk::Hold;
use alm_moments::{Moments, RunId};
use alm_rings::{SlotReport, Told};
use alm_store::Store;
use alm_types::Slot;
use alm_wake::{Bell, Bells, Flags, Healing, ThreadBell};
use std::alloc::{AllocError, Global};
use std::sync::Wait;
use std::thread;
use std::thread::{Scope, Threads};
use std::time::Clock;

// Starts the threads of the sequencer and of the sources, is the flusher's thread, and joins the others.
fn run_all<
    's,
    Env,
    K: Store,
    T: Told + Drop + Send,
    L: Look<Told = T> + Drop + Send,
    S: Source<T, L> + Drop + Send,
    B: Board<Told = T> + Publish<R, Moments<J>> + Closes<R>,
    J: RunId,
    E: Bell + Drop + Sync,
    H: Hold + Sync,
    R: Threads + Wait + Clock + Sync,
>(
    scope: &Scope<'s, Env>,
    rt: &'s R,
    alloc: Global,
    flags: &'s Flags<E>,
    healing: &'s Healing,
    slots: &'s Vec<Slot>,
    hold: &'s H,
    slot_parts: Vec<SlotParts<T, L, S>>,
    room: JoinedThreads<T, S>,
    board: B,
    middle: Middle<K, T, J>,
) -> Result<JoinedEnds<K, T, J, S>, NotStarted<K>>
where
    T: 's,
    L: 's,
    S: 's,
    E: 's,
    H: 's,
    requires serves { ServesSlots slots.now.items middle.rings.inboxes.items }
    requires tied { AreTied (map (λ p. p.console) slot_parts.items) middle.rings.inboxes.items
        middle.flusher.outboxes.items }
    requires base { (K.state middle.flusher.store).stored ≡ B.Board.base board }
    requires fresh { (B.Board.published board ≡ []) × (B.Board.pending board ≡ []) ×
        (B.Board.logged board ≡ []) }
    requires room { (room.consoles.items ≡ []) × (vec_len slot_parts ≤ vec_capacity room.consoles) ×
        (room.sources.items ≡ []) × (vec_len slot_parts ≤ vec_capacity room.sources) }
    ensures back { IfOk result
        (λ e. AreBack K.Store K.Device.Disk (map (λ p. p.console) slot_parts.items) middle.rings
        middle.flusher e.ends) }
    ensures accounts { IfOk result
        (λ e. AllAccount S.did (map (λ p. source_state p.source p.look p.console) slot_parts.items)
        e.sources.items e.ends.consoles.items) }
    ensures refused { IfErr result (λ e. e.store ≡ middle.flusher.store) }
{
    let Middle {
        plant,
        rings,
        flusher,
        recorder,
    } = middle;
    let FlusherParts {
        store,
        outboxes,
        fetch,
    } = flusher;
    let sequencer = match start_sequencer(scope, rt, flags, slots, hold, plant, rings) {
        Ok(handle) => handle,
        Err(fault) => {
            board.close(rt);
            return Err(NotStarted { fault, store });
        }
    };
    let sources = match start_all(scope, rt, alloc, flags, slot_parts) {
        Ok(handles) => handles,
        Err(fault) => {
            board.close(rt);
            return Err(NotStarted { fault, store });
        }
    };
    let mut flusher = RecordedFlusher::new(store, board, outboxes, fetch, recorder);
    flush(rt, flags, healing, &mut flusher);
    let JoinedThreads { consoles, sources } = join_all(rt, sources, room);
    Ok(JoinedEnds {
        ends: end_run(rt, consoles, sequencer.join(rt), flusher),
        sources,
    })
}

// The same, in a scope of its own that joins all threads that were started.
fn in_scope<
    's,
    K: Store,
    T: Told + Drop + Send,
    L: Look<Told = T> + Drop + Send,
    S: Source<T, L> + Drop + Send,
    B: Board<Told = T> + Publish<R, Moments<J>> + Closes<R>,
    J: RunId,
    E: Bell + Drop + Sync,
    H: Hold + Sync,
    R: Threads + Wait + Clock + Sync,
>(
    rt: &'s R,
    alloc: Global,
    flags: &'s Flags<E>,
    healing: &'s Healing,
    slots: &'s Vec<Slot>,
    hold: &'s H,
    slot_parts: Vec<SlotParts<T, L, S>>,
    room: JoinedThreads<T, S>,
    board: B,
    middle: Middle<K, T, J>,
) -> Result<JoinedEnds<K, T, J, S>, NotStarted<K>>
    requires serves { ServesSlots slots.now.items middle.rings.inboxes.items }
    requires tied { AreTied (map (λ p. p.console) slot_parts.items) middle.rings.inboxes.items
        middle.flusher.outboxes.items }
    requires base { (K.state middle.flusher.store).stored ≡ B.Board.base board }
    requires fresh { (B.Board.published board ≡ []) × (B.Board.pending board ≡ []) ×
        (B.Board.logged board ≡ []) }
    requires room { (room.consoles.items ≡ []) × (vec_len slot_parts ≤ vec_capacity room.consoles) ×
        (room.sources.items ≡ []) × (vec_len slot_parts ≤ vec_capacity room.sources) }
    ensures back { IfOk result
        (λ e. AreBack K.Store K.Device.Disk (map (λ p. p.console) slot_parts.items) middle.rings
        middle.flusher e.ends) }
    ensures accounts { IfOk result
        (λ e. AllAccount S.did (map (λ p. source_state p.source p.look p.console) slot_parts.items)
        e.sources.items e.ends.consoles.items) }
    ensures refused { IfErr result (λ e. e.store ≡ middle.flusher.store) }
{
    let closing = ClosingBoard::new(board, rt);
    thread::scope(
        thread::scope_env(),
        rt,
        |scope| -> Result<JoinedEnds<K, T, J, S>, NotStarted<K>>
            requires { ServesSlots slots.now.items middle.rings.inboxes.items ×
                AreTied (map (λ p. p.console) slot_parts.items) middle.rings.inboxes.items
                middle.flusher.outboxes.items × ((K.state middle.flusher.store).stored ≡ B.Board.base closing.board) ×
                (B.Board.published closing.board ≡ []) × (B.Board.pending closing.board ≡ []) ×
                (B.Board.logged closing.board ≡ []) ×
                (room.consoles.items ≡ []) × (vec_len slot_parts ≤ vec_capacity room.consoles) ×
                (room.sources.items ≡ []) × (vec_len slot_parts ≤ vec_capacity room.sources) }
            ensures back { IfOk result
                (λ e. AreBack K.Store K.Device.Disk (map (λ p. p.console) slot_parts.items)
                middle.rings middle.flusher e.ends) }
            ensures accounts { IfOk result
                (λ e. AllAccount S.did
                (map (λ p. source_state p.source p.look p.console) slot_parts.items) e.sources.items
                e.ends.consoles.items) }
            ensures refused { IfErr result (λ e. e.store ≡ middle.flusher.store) }
        {
            run_all(
                scope,
                rt,
                alloc,
                flags,
                healing,
                slots,
                hold,
                slot_parts,
                room,
                closing.open(),
                middle,
            )
        },
    )
}

// Room for the parts of the slots, for what their threads return, and for what each slot reports.
#[derive(Drop)]
struct Room<T: Told + Drop, L: Look<Told = T> + Drop, S: Source<T, L> + Drop> {
    slot_parts: Vec<SlotParts<T, L, S>>,
    joined: JoinedThreads<T, S>,
    reports: Vec<Option<SlotReport>>,
}

// Room for `slots` slots.
fn room_for<T: Told + Drop, L: Look<Told = T> + Drop, S: Source<T, L> + Drop>(
    alloc: Global,
    slots: usize,
) -> Result<Room<T, L, S>, AllocError>
    ensures slot_parts { IfOk result
        (λ r. (r.slot_parts.items ≡ []) × (slots ≤ vec_capacity r.slot_parts)) }
    ensures consoles { IfOk result
        (λ r. (r.joined.consoles.items ≡ []) × (slots ≤ vec_capacity r.joined.consoles)) }
    ensures sources { IfOk result
        (λ r. (r.joined.sources.items ≡ []) × (slots ≤ vec_capacity r.joined.sources)) }
    ensures reports { IfOk result (λ r. (r.reports.items ≡ []) × (slots ≤ vec_capacity r.reports)) }
{
    let slot_parts = Vec::with_capacity(alloc, slots)?;
    let consoles = Vec::with_capacity(alloc, slots)?;
    let sources = Vec::with_capacity(alloc, slots)?;
    let reports = Vec::with_capacity(alloc, slots)?;
    Ok(Room {
        slot_parts,
        joined: JoinedThreads { consoles, sources },
        reports,
    })
}

/// Runs these parts with a source for each slot, in the order of the slots, and a bell for each that wakes it. There is a thread
/// for each source and one for the sequencer; the flusher runs in the caller's.
///
/// It ends when all sources have ended and no work is left, or when the storage is stopped; no further turns are taken after
/// that. Once the threads are joined it finishes what they left: so a run isn't whole only for its cause. If out of memory or no
/// thread can be made, the store is returned as it was, and the other parts are lost. While it runs, a checkpoint may be asked for.
pub fn run_with_bells<
    K: Store,
    T: Told + Drop + Send,
    L: Look<Told = T> + Drop + Send,
    S: Source<T, L> + Drop + Send,
    B: Board<Told = T> + Publish<R, Moments<J>> + Closes<R>,
    J: RunId,
    E: Bell + Drop + Sync,
    H: Hold + Sync,
    R: Threads + Wait + Clock + Sync,
>(
    rt: &R,
    alloc: Global,
    parts: Parts<T, L, B, K, J>,
    hold: &H,
    healing: &Healing,
    bells: Vec<E>,
    sources: Vec<S>,
) -> Result<RunEnd<K, T, J, S>, NotStarted<K>>
    requires sources { length sources.items ≡ length parts.slots.items }
    requires place { (k n : ℕ) (s : _) → slice_get sources.items k ≡ Some s → S.slot s ≡ Some n →
        slice_get parts.slots.items k ≡ Some n }
    ensures run { IfOk result
        (λ end. IsRunOver K.Store K.Device.Disk parts.middle.flusher.store parts.slots.items
        parts.consoles.items end.report) }
    ensures accounts { IfOk result
        (λ end. AllAccount S.did
        (states_of sources.items parts.looks.items parts.consoles.items) end.sources.items
        end.report.consoles.value.items) }
    ensures refused { IfErr result (λ e. e.store ≡ parts.middle.flusher.store) }
{
    let Ok(
        Room {
            slot_parts,
            joined,
            reports,
        },
    ) = room_for(alloc, parts.slots.len())
    else {
        return Err(NotStarted::out_of_memory(parts.close(rt)));
    };
    let Parts {
        slots,
        consoles,
        looks,
        board,
        middle,
    } = parts;
    let slot_parts = slot_parts_of(slot_parts, consoles, looks, sources);
    let flags = Flags::new(Bells::new(slots.as_slice(), bells));
    let JoinedEnds { ends, sources } = in_scope(
        rt, alloc, &flags, healing, &slots, hold, slot_parts, joined, board, middle,
    )?;
    Ok(RunEnd {
        report: report_of(ends, reports),
        sources,
    })
}

/// Runs these parts with a source for each slot, in the order of the slots, each woken when a receipt is released to it. A fault
/// if out of memory or no thread can be made: the parts are lost, and the device must be opened again.
pub fn run_threads<
    K: Store,
    T: Told + Drop + Send,
    L: Look<Told = T> + Drop + Send,
    S: Source<T, L> + Drop + Send,
    B: Board<Told = T> + Publish<R, Moments<J>> + Closes<R>,
    J: RunId,
    H: Hold + Sync,
    R: Threads + Wait + Clock + Sync,
>(
    rt: &R,
    alloc: Global,
    parts: Parts<T, L, B, K, J>,
    hold: &H,
    sources: Vec<S>,
) -> Result<RunEnd<K, T, J, S>, StartFault>
    requires sources { length sources.items ≡ length parts.slots.items }
    requires place { (k n : ℕ) (s : _) → slice_get sources.items k ≡ Some s → S.slot s ≡ Some n →
        slice_get parts.slots.items k ≡ Some n }
    ensures run { IfOk result
        (λ end. IsRunOver K.Store K.Device.Disk parts.middle.flusher.store parts.slots.items
        parts.consoles.items end.report) }
    ensures accounts { IfOk result
        (λ end. AllAccount S.did
        (states_of sources.items parts.looks.items parts.consoles.items) end.sources.items
        end.report.consoles.value.items) }
{
    let Ok(mut bells) = Vec::with_capacity(alloc, sources.len()) else {
        drop(parts.close(rt));
        return Err(StartFault::OutOfMemory);
    };
    for _ in 0..sources.len() {
        if bells.push(ThreadBell::new()).is_err() {
            drop(parts.close(rt));
            return Err(StartFault::OutOfMemory);
        }
    }
    let healing = Healing::new();
    match run_with_bells(rt, alloc, parts, hold, &healing, bells, sources) {
        Ok(end) => Ok(end),
        Err(NotStarted { fault, store: _ }) => Err(fault),
    }
}
