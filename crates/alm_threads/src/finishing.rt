//! Finishes what the threads of a run left.
ghost use Rattle.std.specs.Prelude.{◌≡◌, ◌↔◌, ℕ, false, true, Some, None, IfSome, IsSome};
ghost use Rattle.rtrb.specs.Ring.{IsPair};
ghost use Rattle.alm_rings.specs.declared.inbox.Inbox.{Inbox};
ghost use Rattle.alm_rings.specs.Batches.{AreBatchEnds};
ghost use Rattle.alm_rings.specs.Ends.{SameConsole, received_of, sent_of};
ghost use Rattle.alm_rings.specs.Placed.{inbox_at, taken_by};
ghost use Rattle.alm_seq.specs.Sequences.{SameInboxes, live_base};
ghost use Rattle.alm_threads.specs.Causes.{StopsFor};
ghost use Rattle.alm_threads.specs.Kept.{KeepsEnds, KeepsFlusher};
ghost use Rattle.alm_threads.specs.Finished.{AreAllTaken, HaveInboxes, IsAllAnswered, IsTaken};
ghost use Rattle.alm_threads.specs.Same.{AllIdle, AllSame};

use crate::recorded_flusher::RecordedFlusher;
use crate::stop_cause::StopCause;
use alm_board::{Board, Publish};
use alm_flush::Fetch;
use alm_model::Alarms;
use alm_moments::{Moments, RunId};
use alm_rings::{Console, Told};
use alm_seq::{Seal, Sequencer, Take};
use alm_store::Store;
use std::sync::Wait;

// Takes the next request of a console's slot: whether there may have been one.
fn take_one<T: Told + Drop, P: Alarms + Drop>(
    console: &mut Console<T>,
    sequencer: &mut Sequencer<P>,
) -> bool
    requires there { IsSome (inbox_at console.old.slot sequencer.old.inboxes.items) }
    requires pair { (i : Inbox) → inbox_at console.old.slot sequencer.old.inboxes.items ≡ Some i →
        IsPair console.old.requests i.requests }
    ensures console { SameConsole console.old console.new }
    ensures idle { (sent_of console.new ≡ sent_of console.old) ×
        (received_of console.new ≡ received_of console.old) }
    ensures inboxes { SameInboxes sequencer.old.inboxes.items sequencer.new.inboxes.items }
    ensures ends { sequencer.new.ends ≡ sequencer.old.ends }
    ensures base { live_base sequencer.new ≡ live_base sequencer.old }
    ensures none { result ≡ false → IsTaken console.new sequencer.new.inboxes.items ×
        ((s : ℕ) → taken_by s sequencer.new.inboxes.items ≡ taken_by s sequencer.old.inboxes.items) }
{
    let slot = console.slot();
    sequencer.requests_beside(slot, console);
    sequencer.take(slot) != Take::Empty
}

// Takes a request of each slot: whether there may have been one.
fn take_each<T: Told + Drop, P: Alarms + Drop>(
    consoles: &mut [Console<T>],
    sequencer: &mut Sequencer<P>,
) -> bool
    requires tied { HaveInboxes consoles.old sequencer.old.inboxes.items }
    ensures consoles { AllSame consoles.old consoles.new }
    ensures idle { AllIdle consoles.old consoles.new }
    ensures inboxes { SameInboxes sequencer.old.inboxes.items sequencer.new.inboxes.items }
    ensures ends { sequencer.new.ends ≡ sequencer.old.ends }
    ensures base { live_base sequencer.new ≡ live_base sequencer.old }
    ensures none { result ≡ false → AreAllTaken consoles.new sequencer.new.inboxes.items }
{
    let mut found = false;
    for console in consoles.iter_mut() {
        if take_one(console, sequencer) {
            found = true;
        }
    }
    found
}

// Whether anything may be left, by what was taken, sealed and fetched.
fn is_left(found: bool, sealed: Seal, fetched: Fetch) -> bool
    ensures { result ≡ false →
        (found ≡ false) × (sealed ≡ Seal.NothingToSeal) × (fetched ≡ Fetch.Empty) }
{
    found || sealed != Seal::NothingToSeal || fetched != Fetch::Empty
}

// A step of each kind by the flusher.
fn flush_one<
    K: Store,
    T: Told + Drop,
    B: Board<Told = T> + Publish<R, Moments<J>>,
    J: RunId,
    R: Wait,
>(rt: &R, flusher: &mut RecordedFlusher<K, T, B, J>)
    ensures kept { KeepsFlusher flusher.old flusher.new }
    ensures honest { K.Device.honest (K.disk flusher.old.flusher.store) ↔
        K.Device.honest (K.disk flusher.new.flusher.store) }
{
    flusher.advance();
    flusher.publish::<R>(rt);
    flusher.release();
    flusher.give_back();
}

// A step of each kind by the sequencer and the flusher: whether nothing was left.
fn finish_some<
    K: Store,
    T: Told + Drop,
    B: Board<Told = T> + Publish<R, Moments<J>>,
    J: RunId,
    P: Alarms + Drop,
    R: Wait,
>(
    rt: &R,
    consoles: &mut [Console<T>],
    sequencer: &mut Sequencer<P>,
    flusher: &mut RecordedFlusher<K, T, B, J>,
) -> bool
    requires tied { HaveInboxes consoles.old sequencer.old.inboxes.items }
    requires batches { AreBatchEnds sequencer.old.ends flusher.old.flusher.fetch }
    ensures ends { KeepsEnds consoles.old consoles.new sequencer.old.inboxes.items
        sequencer.new.inboxes.items sequencer.old.ends sequencer.new.ends }
    ensures live { live_base sequencer.new ≡ live_base sequencer.old }
    ensures kept { KeepsFlusher flusher.old flusher.new }
    ensures honest { K.Device.honest (K.disk flusher.old.flusher.store) ↔
        K.Device.honest (K.disk flusher.new.flusher.store) }
    ensures cause { result ≡ true → flusher.old.failed ≡ false → flusher.new.failed ≡ false }
    ensures done { result ≡ true →
        IsAllAnswered consoles.new sequencer.new.inboxes.items flusher.new.flusher.outboxes.items }
{
    let found = take_each(consoles, sequencer);
    let sealed = sequencer.seal();
    flusher.batches_beside(&mut sequencer.ends);
    let fetched = flusher.fetch();
    if is_left(found, sealed, fetched) {
        flush_one(rt, flusher);
        return false;
    }
    true
}

/// Takes, seals, commits, publishes and releases until nothing is left, or there is a cause to stop. All ends are in one thread.
/// If the threads of a run ended by themselves, or for a cause, there is nothing to do.
pub fn finish<
    K: Store,
    T: Told + Drop,
    B: Board<Told = T> + Publish<R, Moments<J>>,
    J: RunId,
    P: Alarms + Drop,
    R: Wait,
>(
    rt: &R,
    consoles: &mut [Console<T>],
    sequencer: &mut Sequencer<P>,
    flusher: &mut RecordedFlusher<K, T, B, J>,
) -> Option<StopCause>
    requires tied { HaveInboxes consoles.old sequencer.old.inboxes.items }
    requires batches { AreBatchEnds sequencer.old.ends flusher.old.flusher.fetch }
    ensures ends { KeepsEnds consoles.old consoles.new sequencer.old.inboxes.items
        sequencer.new.inboxes.items sequencer.old.ends sequencer.new.ends }
    ensures live { live_base sequencer.new ≡ live_base sequencer.old }
    ensures kept { KeepsFlusher flusher.old flusher.new }
    ensures honest { K.Device.honest (K.disk flusher.old.flusher.store) ↔
        K.Device.honest (K.disk flusher.new.flusher.store) }
    ensures stopped { IfSome result (λ why. StopsFor why flusher.new.failed flusher.new.refused) ×
        (flusher.new.failed ≡ true → result ≡ Some StopCause.Store) }
    ensures done { result ≡ None → (flusher.new.failed ≡ false) ×
        IsAllAnswered consoles.new sequencer.new.inboxes.items flusher.new.flusher.outboxes.items }
{
    for _ in rt.forever() {
        let cause = flusher.cause();
        if cause.is_some() {
            return cause;
        }
        if finish_some(rt, consoles, sequencer, flusher) {
            return None;
        }
    }
    unreachable!()
}
