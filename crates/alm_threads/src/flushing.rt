//! The flusher's thread.
ghost use Rattle.std.specs.Prelude.{◌≡◌, ◌↔◌};
ghost use Rattle.alm_threads.specs.Kept.{KeepsFlusher};

use crate::recorded_flusher::RecordedFlusher;
use alm_board::{Board, Publish};
use alm_flush::{Advance, Fetch, Publishes, Release};
use alm_moments::{Moments, RunId};
use alm_rings::Told;
use alm_store::Store;
use alm_types::MOST_ENTRIES;
use alm_wake::{Bell, Flags, FlusherPace, Healing};
use std::sync::Wait;

// What a pass found.
#[derive(Clone, Copy, Debug, PartialEq, Eq)]
enum Pass {
    Work,
    // No sealed batch was there.
    Empty,
    // The console of the next receipt has no room for it.
    Full,
    Stopped,
}

// Commits a step of the held batch and publishes it, if that is next: its replies are then due.
fn commit<
    K: Store,
    T: Told + Drop,
    B: Board<Told = T> + Publish<R, Moments<J>>,
    J: RunId,
    E: Bell + Drop,
    R: Wait,
>(rt: &R, flusher: &mut RecordedFlusher<K, T, B, J>, pace: &mut FlusherPace<'_, E>) -> Pass
    ensures kept { KeepsFlusher flusher.old flusher.new }
    ensures honest { K.Device.honest (K.disk flusher.old.flusher.store) ↔
        K.Device.honest (K.disk flusher.new.flusher.store) }
{
    if flusher.advance() == Advance::Failed {
        return Pass::Stopped;
    }
    match flusher.publish::<R>(rt) {
        Publishes::Published => pace.publish(),
        Publishes::OutOfMemory => {
            if flusher.cause().is_some() {
                return Pass::Stopped;
            }
        }
        Publishes::NotYet => {}
    }
    Pass::Work
}

// Releases the batch's receipts and wakes their slots, returns it, and has the slots woken that were left asleep.
fn answer<K: Store, T: Told + Drop, B: Board<Told = T>, J: RunId, E: Bell + Drop>(
    flusher: &mut RecordedFlusher<K, T, B, J>,
    pace: &mut FlusherPace<'_, E>,
) -> Pass
    ensures kept { KeepsFlusher flusher.old flusher.new }
    ensures store { flusher.new.flusher.store ≡ flusher.old.flusher.store }
{
    for _ in 0..MOST_ENTRIES {
        match flusher.release() {
            Release::Released(slot) => pace.release(slot),
            Release::Full(slot) => {
                pace.find_full(slot);
                return Pass::Full;
            }
            Release::Nothing => break,
        }
    }
    if flusher.give_back() {
        pace.answer();
    }
    Pass::Work
}

// One step of each kind.
fn step<
    K: Store,
    T: Told + Drop,
    B: Board<Told = T> + Publish<R, Moments<J>>,
    J: RunId,
    E: Bell + Drop,
    R: Wait,
>(rt: &R, flusher: &mut RecordedFlusher<K, T, B, J>, pace: &mut FlusherPace<'_, E>) -> Pass
    ensures kept { KeepsFlusher flusher.old flusher.new }
    ensures honest { K.Device.honest (K.disk flusher.old.flusher.store) ↔
        K.Device.honest (K.disk flusher.new.flusher.store) }
{
    match flusher.fetch() {
        Fetch::Got => pace.fetch(),
        Fetch::Held => {}
        Fetch::Empty => {
            if pace.has_rest() && flusher.advance() == Advance::Failed {
                return Pass::Stopped;
            }
            return Pass::Empty;
        }
    }
    // Replies that wait come before the pieces of a checkpoint.
    if flusher.next().is_none() {
        let pass = commit(rt, flusher, pace);
        if pass == Pass::Stopped {
            return pass;
        }
    }
    answer(flusher, pace)
}

// Notes how many actions are stored, and opens the checkpoint that is asked for, if it can be opened now.
fn heal<K: Store, T: Told + Drop, B: Board<Told = T>, J: RunId>(
    flusher: &mut RecordedFlusher<K, T, B, J>,
    healing: &Healing,
)
    ensures kept { KeepsFlusher flusher.old flusher.new }
    ensures honest { K.Device.honest (K.disk flusher.old.flusher.store) ↔
        K.Device.honest (K.disk flusher.new.flusher.store) }
{
    healing.note(flusher.keeper().count());
    if healing.is_asked() && flusher.heal() {
        healing.begin();
    }
}

/// Commits, publishes and releases until no batch will be sealed and none is left, or there is a cause to stop. The threads that
/// wait for what it does are woken. A checkpoint that is asked for is opened between two batches.
pub fn flush<
    K: Store,
    T: Told + Drop,
    B: Board<Told = T> + Publish<R, Moments<J>>,
    J: RunId,
    E: Bell + Drop,
    R: Wait,
>(rt: &R, flags: &Flags<E>, healing: &Healing, flusher: &mut RecordedFlusher<K, T, B, J>)
    ensures kept { KeepsFlusher flusher.old flusher.new }
    ensures honest { K.Device.honest (K.disk flusher.old.flusher.store) ↔
        K.Device.honest (K.disk flusher.new.flusher.store) }
{
    let mut pace = FlusherPace::new(flags);
    for _ in rt.forever() {
        if pace.is_stopped() {
            break;
        }
        heal(flusher, healing);
        let last = pace.is_last();
        match step(rt, flusher, &mut pace) {
            Pass::Work => {
                pace.work();
                continue;
            }
            Pass::Empty => {
                pace.empty();
                if last {
                    break;
                }
                if pace.stays_awake() {
                    continue;
                }
            }
            Pass::Full => {
                if pace.announce_full() {
                    continue;
                }
            }
            Pass::Stopped => {
                pace.stop_all();
                break;
            }
        }
        pace.wait(rt);
    }
}
