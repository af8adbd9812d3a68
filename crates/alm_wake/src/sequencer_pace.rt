//! When the sequencer's thread seals and sleeps.
ghost use Rattle.std.specs.Prelude.{◌≡◌, ◌<◌, ◌≤◌, ◌+◌, ◌-◌, ◌/◌, ◌^◌, IfSome, min, false, slice_set, true};
ghost use Rattle.alm_wake.specs.Gatherings.{nobody};
ghost use Rattle.alm_wake.specs.Paces.{DecidesOn, WaitsOnce};

use crate::awaited::Awaited;
use crate::bell::Bell;
use crate::bounds::{DOZE_SHARE, DOZES, EARLY_YIELDS};
use crate::commit_time::{CommitTime, micros_since};
use crate::flags::Flags;
use crate::gathering::Gathering;
use crate::pause::Pause;
use crate::sealing::Sealing;
use alm_types::Slot;
use std::sync::Wait;
use std::sync::atomic::Ordering;
use std::thread;
use std::time::{Clock, Instant};

/// When the sequencer's thread seals and sleeps. It knows which slots are in the open batch, and how long the last commit took.
#[derive(Drop)]
pub struct SequencerPace<'f, B: Bell + Drop> {
    flags: &'f Flags<B>,
    gathering: Gathering,
    commit: CommitTime,
    // How many turns in a row found no work.
    idle: u32,
}

// Yields until the last ones have come, for a while: what is left of the pause if they haven't.
fn yield_to_last<C: Clock>(clock: &C, awaited: &Awaited, pause: Pause) -> Option<Pause>
    ensures { IfSome result (λ left. left.micros ≤ pause.micros) }
{
    let began = Instant::now(clock).ok()?;
    let most = pause.micros();
    awaited.attend();
    for _ in 0..EARLY_YIELDS {
        if awaited.have_come() || micros_since(clock, began)? >= most {
            return None;
        }
        thread::yield_now();
    }
    if awaited.listen() {
        return None;
    }
    pause.after(micros_since(clock, began)?)
}

// Sleeps until few are awaited, and stays awake for those: for one pause in all.
fn await_all<B: Bell + Drop, R: Wait + Clock>(rt: &R, flags: &Flags<B>, pause: Pause) {
    let mut pause = pause;
    for _ in rt.forever() {
        let Some(left) = flags.sequencer.sleep(rt, pause) else {
            return;
        };
        let Some(left) = yield_to_last(rt, &flags.awaited, left) else {
            return;
        };
        pause = left;
    }
}

impl<'f, B: Bell + Drop> SequencerPace<'f, B> {
    /// Nothing was taken yet, and nothing sealed.
    pub fn new(flags: &'f Flags<B>) -> Self
        ensures gathering { result.gathering ≡
            record { joined = nobody; answered = nobody; fresh = false } }
        ensures commit { result.commit ≡ record { since = None; micros = 0 } }
        ensures turns { result.idle ≡ 0 }
    {
        SequencerPace {
            flags,
            gathering: Gathering::new(),
            commit: CommitTime::new(),
            idle: 0,
        }
    }

    /// Whether the thread is to stop. The slots are woken that the flusher's thread left.
    pub fn is_stopped(&self) -> bool {
        if self.flags.is_stopped() {
            return true;
        }
        self.flags.slots.ring_left();
        false
    }

    /// Whether this number of sources has ended. Ask before a pass: it then finds all that they sent.
    pub fn have_ended(&self, sources: usize) -> bool {
        self.flags.ended.load(Ordering::SeqCst) >= sources
    }

    /// A request of this slot came into the open batch.
    pub fn join(&mut self, slot: Slot)
        ensures { self.new ≡ record self.old {
          gathering = record self.old.gathering {
            joined = slice_set self.old.gathering.joined slot true;
          };
        } }
    {
        self.gathering.join(slot);
    }

    /// Whether the open batch is sealed: if it is full; or if no batch is out, and it has waited for those that the last one
    /// answered.
    pub fn sealing<C: Clock>(&mut self, clock: &C, is_full: bool) -> Sealing
        ensures why { DecidesOn is_full self.old.gathering self.new.commit.micros result }
        ensures once { WaitsOnce result self.new.gathering.fresh }
        ensures others { self.new ≡ record self.old {
          commit = self.new.commit;
          gathering =
              record self.old.gathering { fresh = self.new.gathering.fresh };
        } }
    {
        if is_full {
            return Sealing::Now;
        }
        if self.flags.out.load(Ordering::SeqCst) {
            return Sealing::Later;
        }
        match self.gathering.pause(self.commit.end(clock)) {
            Some(pause) => Sealing::After(pause),
            None => Sealing::Now,
        }
    }

    /// The open batch was sealed: the flusher's thread is woken.
    pub fn seal<C: Clock>(&mut self, clock: &C)
        ensures gathering { self.new.gathering ≡
            record { joined = nobody; answered = self.old.gathering.joined; fresh = true } }
        ensures time { self.new.commit.micros ≡ self.old.commit.micros }
        ensures turns { self.new.idle ≡ self.old.idle }
    {
        self.gathering.seal();
        self.commit.begin(clock);
        self.flags.batches.fetch_add(1, Ordering::SeqCst);
        self.flags.out.store(true, Ordering::SeqCst);
        self.flags.flusher.ring();
    }

    /// Starts to await the slots that the last batch answered. A slot that sent before wakes no thread: check once more, and then
    /// call [`SequencerPace::gather`].
    pub fn await_slots<R: Wait>(&self, rt: &R) {
        self.flags.sequencer.hush(rt);
        self.flags.awaited.begin(&self.gathering);
    }

    /// Waits until they have come, for one pause at most; not at all if the open batch is full.
    pub fn gather<R: Wait + Clock>(&self, rt: &R, pause: Pause, is_full: bool) {
        if self.flags.awaited.narrow(&self.gathering) && !is_full {
            await_all(rt, self.flags, pause);
        }
        self.flags.awaited.end();
    }

    /// A turn found work.
    pub fn work(&mut self)
        ensures { self.new ≡ record self.old { idle = 0 } }
    {
        self.idle = 0;
    }

    /// A turn found none: waits until it is woken, or for a quarter of a commit if two more batches waited than the one that was
    /// answered. That delays no slot, and no thread has to wake this one, the flusher's least of all.
    pub fn wait<R: Wait>(&mut self, rt: &R)
        ensures { self.new ≡ record self.old { idle = min (self.old.idle + 1) (2 ^ 32 - 1) } }
    {
        match self.doze() {
            Some(pause) => self.flags.sequencer.doze(rt, pause),
            None => self.flags.sequencer.wait(rt, self.idle),
        }
        self.idle = self.idle.saturating_add(1);
    }

    // How long a turn without work dozes if two more batches are queued: a quarter of the last commit, and not through too many
    // turns in a row.
    fn doze(&self) -> Option<Pause>
        ensures long { IfSome result
            (λ pause. pause.micros ≡ min (self.now.commit.micros / 4) 500) }
        ensures often { IfSome result (λ _. self.now.idle < 16) }
    {
        let micros = self.commit.last() / DOZE_SHARE;
        if micros > 0 && self.idle < DOZES && self.flags.busy.load(Ordering::SeqCst) {
            return Some(Pause::of(micros));
        }
        None
    }

    /// No further batch is sealed.
    pub fn end(&self) {
        self.flags.end_sealing();
    }
}
