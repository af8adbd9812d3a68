//! A flusher, with the moments of its run.
ghost use Rattle.std.specs.Prelude.{◌≡◌, ◌≢◌, ◌↔◌, ◌+◌, ◌-◌, ◌^◌, ◌<◌, ◌≤◌, ◌++◌, ◌∷◌, [], ℕ, List, false, true, length, MatchBool};
ghost use Rattle.alm_model.specs.Plant.{Condensed};
ghost use Rattle.alm_model.specs.Judging.{accepted_of, entries_in};
ghost use Rattle.alm_disk.specs.Failures.{HasFailed};
ghost use Rattle.alm_rings.specs.Batches.{fetched_of};
ghost use Rattle.alm_store.specs.declared.phase.Phase.TheVariants.{Stopped};
ghost use Rattle.alm_flush.specs.Flushes.{IsGivenUp};
ghost use Rattle.alm_flush.specs.HeldBatch.{stored_of};
ghost use Rattle.alm_threads.specs.Histories.{AreInOrder};
ghost use Rattle.alm_moments.specs.Moments.{moment_of, now_of};
ghost use Rattle.alm_moments.specs.Naming.{IsNamedAfter};

use crate::flusher_parts::FlusherParts;
use crate::stop_cause::StopCause;
use alm_board::{Board, Publish};
use alm_flush::{Advance, Fetch, Flusher, Publishes, Release};
use alm_moments::{CurrentState, Moments, Recorder, RunId};
use alm_rings::{FetchEnds, Outbox, SealEnds, Told};
use alm_store::{Phase, Store};
use alm_types::Entry;
use std::snapshot::Snapshot;
use std::sync::Wait;

/// How often in a row a publish is refused before the run stops.
const REFUSALS: u64 = 1000;

// Whether a step failed.
fn has_failed(advanced: Advance) -> bool
    ensures { MatchBool result (advanced ≡ Advance.Failed) (advanced ≢ Advance.Failed) }
{
    advanced == Advance::Failed
}

// How many publishes in a row were refused, after one more or none.
fn refused_after(published: Publishes, refused: u64) -> u64
    ensures more { result ≤ refused + 1 }
    ensures refused { refused < result → published ≡ Publishes.OutOfMemory }
    ensures published { published ≡ Publishes.Published → result ≡ 0 }
    ensures counted { published ≡ Publishes.OutOfMemory → refused < 2 ^ 64 - 1 →
        result ≡ refused + 1 }
{
    match published {
        Publishes::Published => 0,
        Publishes::OutOfMemory => refused.saturating_add(1),
        Publishes::NotYet => refused,
    }
}

/// A flusher, with the moments of its run. Before each of its steps whatever a crash leaves of an honest device is safe, and a
/// step makes one device call, or none. Each step of a commit and each batch that is fetched add a moment to the run's history, and
/// so does what is stored before it is published.
#[derive(Drop)]
pub struct RecordedFlusher<K: Store, T: Told + Drop, B: Board<Told = T>, J: RunId> {
    flusher: Flusher<K, T, B>,
    // The store with which the run began.
    first: Snapshot<K>,
    // The history so far.
    recorder: Recorder<J>,
    // Up to which count actions may be reported.
    floor: u64,
    // A step of the store has failed: nothing continues then.
    failed: bool,
    // How many publishes in a row were refused.
    refused: u64,
    /// The run is named after the store with which it began.
    pub ghost device: { J.first ≡ K.Device.state (K.disk first.value) },
    pub ghost premise: { ∥ (J.honest ↔ K.Device.honest (K.disk first.value)) ∥₁ },
    pub ghost base: { J.base ≡ B.base flusher.board },
    pub ghost honest: { ∥ (J.honest → K.Device.honest (K.disk flusher.store)) ∥₁ },
    pub ghost recovers: { ∥ ((b : List ℕ) (p : Condensed) → (J.recovers b p ↔ K.recovers b p)) ∥₁ },
    /// The last moment is the one that is now.
    pub ghost last: { now_of J.base J.first recorder ≡
        moment_of (K.Device.state (K.disk flusher.store))
        (accepted_of (entries_in (fetched_of flusher.fetch))) floor },
    /// What is published may be reported, and what may be reported is stored.
    pub ghost shown: { J.base.panel.count + length (B.published flusher.board) ≤ floor },
    pub ghost stored: { floor ≤ J.base.panel.count +
        length (accepted_of (entries_in (fetched_of flusher.before.value) ++ stored_of flusher.held)) },
    /// A store that has stopped failed in a step, and so did one whose commit has failed.
    pub ghost stopped: { (K.state flusher.store).phase ≡ Stopped → failed ≡ true },
    pub ghost given_up: { IsGivenUp flusher.held → failed ≡ true },
    pub ghost count: { K.Device.failures (K.disk first.value) ≤ K.Device.failures (K.disk flusher.store) },
    /// It failed because the device did, but in the last epoch.
    pub ghost cause: { failed ≡ true → ¬ (K.exhausted flusher.store) →
        AreInOrder (B.base flusher.board) (fetched_of flusher.fetch) →
        ∥ HasFailed (K.Device.failures (K.disk first.value)) (K.Device.failures (K.disk flusher.store)) ∥₁ },
}

impl<K: Store, T: Told + Drop, B: Board<Told = T>, J: RunId> RecordedFlusher<K, T, B, J> {
    ghost use Rattle.std.specs.Prelude.{◌≡◌, ◌↔◌, ◌+◌, ◌-◌, ◌^◌, ◌<◌, ◌≤◌, ◌++◌, [], ℕ, List, slice_get, true, false, IfSome, IsTrue, MatchBool, Some, None};
    ghost use Rattle.alm_rings.specs.Batches.{AreBatchEnds, SameFetchEnds, SameSealEnds, coming_in, fetched_of, given_of, places_in, sealed_of};
    ghost use Rattle.alm_flush.specs.declared.held.Held.TheVariants.{Nothing};
    ghost use Rattle.alm_rings.specs.Placed.{AreApart, SameOutboxAt, outbox_at, released_by};
    ghost use Rattle.alm_flush.specs.Flushes.{AdvanceAnswers, AreAllReleased, FetchAnswers, GivesBack, PublishAnswers, ReleaseAnswers};
    ghost use Rattle.alm_flush.specs.HeldBatch.{next_entry_of, to_commit};
    ghost use Rattle.alm_flush.specs.Steps.{CallsDevice, OpensBetween};
    ghost use Rattle.alm_threads.specs.Causes.{StopsFor, most_refusals};
    ghost use Rattle.alm_rings.specs.declared.receipt.Receipt.{Receipt};

    /// No batch is held at first. The store has no work begun, and the board shows the plant that is stored.
    pub fn new(
        store: K,
        board: B,
        outboxes: Vec<Outbox<T>>,
        fetch: FetchEnds,
        recorder: Recorder<J>,
    ) -> Self
        requires apart { AreApart (λ o. o.slot) outboxes.items }
        requires released { (s : ℕ) → released_by s outboxes.items ≡ [] }
        requires fetched { fetched_of fetch ≡ [] }
        requires idle { (K.state store).phase ≡ Phase.Idle }
        requires stored { (K.state store).stored ≡ B.base board }
        requires new_board { (B.published board ≡ []) × (B.logged board ≡ []) ×
            (B.pending board ≡ []) }
        requires named { IsNamedAfter J.RunId K.Store K.Device.Disk store }
        requires recorder { recorder ≡ [] }
        ensures parts { (result.flusher.store ≡ store) × (result.flusher.board ≡ board) ×
            (result.flusher.outboxes ≡ outboxes) × (result.flusher.fetch ≡ fetch) }
        ensures first { result.first.value ≡ store }
        ensures counts { (result.failed ≡ false) × (result.refused ≡ 0) }
    {
        let first = Snapshot::of(&store);
        let floor = store.count();
        let flusher = Flusher::new(store, board, outboxes, fetch);
        RecordedFlusher {
            flusher,
            first,
            recorder,
            floor,
            failed: false,
            refused: 0,
        }
    }

    /// Why no further work is done, if there is a cause.
    pub fn cause(&self) -> Option<StopCause>
        ensures some { IfSome result (λ why. StopsFor why self.now.failed self.now.refused) }
        ensures none { result ≡ None → self.now.failed ≡ false }
        ensures few { result ≡ None → self.now.refused < most_refusals }
        ensures failed { self.now.failed ≡ true → result ≡ Some StopCause.Store }
    {
        if self.failed {
            Some(StopCause::Store)
        } else if self.refused >= REFUSALS {
            Some(StopCause::Publishing(self.refused))
        } else {
            None
        }
    }

    /// Synchronises the ends of both batch rings, which must be in the same thread: each learns what the other did.
    pub fn batches_beside(&mut self, seal: &mut SealEnds)
        requires { AreBatchEnds seal.old self.old.flusher.fetch }
        ensures same { (self.new.flusher.store ≡ self.old.flusher.store) ×
            (self.new.flusher.board ≡ self.old.flusher.board) ×
            (self.new.flusher.outboxes ≡ self.old.flusher.outboxes) ×
            (self.new.first ≡ self.old.first) × (self.new.failed ≡ self.old.failed) ×
            (self.new.refused ≡ self.old.refused) }
        ensures ends { AreBatchEnds seal.new self.new.flusher.fetch × SameSealEnds seal.old seal.new ×
            SameFetchEnds self.old.flusher.fetch self.new.flusher.fetch }
        ensures sealed { sealed_of seal.new ≡ sealed_of seal.old }
        ensures fetched { fetched_of self.new.flusher.fetch ++ coming_in self.new.flusher.fetch ≡
            sealed_of seal.new }
    {
        self.flusher.batches_beside(seal);
    }

    /// Fetches the next sealed batch. One that is fetched adds a moment.
    pub fn fetch(&mut self) -> Fetch
        ensures fetch { SameFetchEnds self.old.flusher.fetch self.new.flusher.fetch }
        ensures same { (self.new.flusher.board ≡ self.old.flusher.board) ×
            (self.new.flusher.outboxes ≡ self.old.flusher.outboxes) ×
            (self.new.first ≡ self.old.first) × (self.new.failed ≡ self.old.failed) ×
            (self.new.refused ≡ self.old.refused) }
        ensures honest { K.Device.honest (K.disk self.old.flusher.store) ↔
            K.Device.honest (K.disk self.new.flusher.store) }
        ensures empty { result ≡ Fetch.Empty → (self.new.flusher.held ≡ Nothing) ×
            (fetched_of self.new.flusher.fetch ≡ fetched_of self.old.flusher.fetch) ×
            (coming_in self.old.flusher.fetch ≡ []) }
        ensures answer { self.old.failed ≡ false →
            FetchAnswers result self.old.flusher.held self.new.flusher.held self.old.flusher.fetch
            self.new.flusher.fetch }
    {
        if self.failed {
            return Fetch::Held;
        }
        self.flusher.keeper().images();
        let fetched = self.flusher.fetch();
        if fetched != Fetch::Got {
            return fetched;
        }
        let now = CurrentState {
            store: self.flusher.keeper(),
            fetch: self.flusher.fetch_ends(),
            floor: self.floor,
        };
        self.recorder.record(&now);
        fetched
    }

    /// One step of the held batch's commit, or of an open checkpoint: at most one device call.
    pub fn advance(&mut self) -> Advance
        ensures same { (self.new.flusher.board ≡ self.old.flusher.board) ×
            (self.new.flusher.outboxes ≡ self.old.flusher.outboxes) ×
            (self.new.flusher.fetch ≡ self.old.flusher.fetch) × (self.new.first ≡ self.old.first) ×
            (self.new.refused ≡ self.old.refused) }
        ensures honest { K.Device.honest (K.disk self.old.flusher.store) ↔
            K.Device.honest (K.disk self.new.flusher.store) }
        ensures answer { self.old.failed ≡ false →
            AdvanceAnswers result (K.state self.old.flusher.store).phase self.old.flusher.held
            self.new.flusher.held }
        ensures device { self.old.failed ≡ false →
            CallsDevice K.Store K.Device.Disk result (to_commit self.old.flusher.held)
            self.old.flusher.store self.new.flusher.store }
    {
        if self.failed {
            return Advance::Failed;
        }
        let advanced = self.flusher.advance();
        let store = self.flusher.keeper();
        store.images();
        let now = CurrentState {
            store,
            fetch: self.flusher.fetch_ends(),
            floor: self.floor,
        };
        self.recorder.record(&now);
        self.failed = has_failed(advanced);
        advanced
    }

    /// Opens a checkpoint between two batches, for a device that was found damaged: whether it did. No device call.
    pub fn heal(&mut self) -> bool
        ensures same { (self.new.flusher.board ≡ self.old.flusher.board) ×
            (self.new.flusher.outboxes ≡ self.old.flusher.outboxes) ×
            (self.new.flusher.fetch ≡ self.old.flusher.fetch) ×
            (self.new.flusher.held ≡ self.old.flusher.held) × (self.new.first ≡ self.old.first) ×
            (self.new.failed ≡ self.old.failed) × (self.new.refused ≡ self.old.refused) }
        ensures opens { OpensBetween K.Store result self.old.flusher.store self.new.flusher.store }
        ensures between { IsTrue result → self.old.flusher.held ≡ Nothing }
        ensures sure { self.old.flusher.held ≡ Nothing →
            (K.state self.old.flusher.store).phase ≡ Phase.Idle →
            ¬ (K.exhausted self.old.flusher.store) → IsTrue result }
    {
        self.flusher.heal()
    }

    // Lets all that is stored be reported: if that is more than before, by a moment.
    fn raise_floor(&mut self)
        ensures same { (self.new.flusher ≡ self.old.flusher) × (self.new.first ≡ self.old.first) ×
            (self.new.failed ≡ self.old.failed) × (self.new.refused ≡ self.old.refused) }
        ensures raised { self.new.floor ≡ (K.state self.old.flusher.store).stored.panel.count }
    {
        let store = self.flusher.keeper();
        store.images();
        let stored = store.count();
        if stored == self.floor {
            return;
        }
        let now = CurrentState {
            store,
            fetch: self.flusher.fetch_ends(),
            floor: stored,
        };
        self.floor = stored;
        self.recorder.record(&now);
    }

    /// Shows the committed batch. All that is stored may be reported before it.
    pub fn publish<R: Wait>(&mut self, rt: &R) -> Publishes
    where
        B: Publish<R, Moments<J>>,
        ensures same { (self.new.flusher.store ≡ self.old.flusher.store) ×
            (self.new.flusher.outboxes ≡ self.old.flusher.outboxes) ×
            (self.new.flusher.fetch ≡ self.old.flusher.fetch) × (self.new.first ≡ self.old.first) }
        ensures base { B.Board.base self.new.flusher.board ≡ B.Board.base self.old.flusher.board }
        ensures refused { (self.new.refused ≤ self.old.refused + 1) ×
            (self.old.refused < self.new.refused → result ≡ Publishes.OutOfMemory) ×
            (result ≡ Publishes.Published → self.new.refused ≡ 0) }
        ensures counted { result ≡ Publishes.OutOfMemory → self.old.refused < 2 ^ 64 - 1 →
            self.new.refused ≡ self.old.refused + 1 }
        ensures answer { PublishAnswers result self.old.flusher.held self.new.flusher.held }
    {
        self.raise_floor();
        let moments = self.recorder.moments();
        let published = self.flusher.publish::<R, Moments<J>>(rt, &moments);
        self.refused = refused_after(published, self.refused);
        published
    }

    /// The entry whose verdict is the next to be released.
    pub fn next(&self) -> Option<Entry>
        ensures { result ≡ next_entry_of self.now.flusher.held }
    {
        self.flusher.next()
    }

    /// Releases the next verdict to its slot; the receipt reports the published list.
    pub fn release(&mut self) -> Release
        ensures outboxes { (s : ℕ) →
            SameOutboxAt (outbox_at s self.old.flusher.outboxes.items)
            (outbox_at s self.new.flusher.outboxes.items) }
        ensures same { (self.new.flusher.store ≡ self.old.flusher.store) ×
            (self.new.flusher.board ≡ self.old.flusher.board) ×
            (self.new.flusher.fetch ≡ self.old.flusher.fetch) × (self.new.first ≡ self.old.first) ×
            (self.new.refused ≡ self.old.refused) }
        ensures answer { ReleaseAnswers result self.old.flusher.held self.new.flusher.held
            self.old.flusher.outboxes.items self.new.flusher.outboxes.items
            (B.base self.old.flusher.board) (K.state self.old.flusher.store).stored
            (B.published self.old.flusher.board) }
    {
        self.flusher.release()
    }

    /// Returns the batch after all its verdicts are released.
    pub fn give_back(&mut self) -> bool
        ensures fetch { SameFetchEnds self.old.flusher.fetch self.new.flusher.fetch }
        ensures same { (self.new.flusher.store ≡ self.old.flusher.store) ×
            (self.new.flusher.board ≡ self.old.flusher.board) ×
            (self.new.flusher.outboxes ≡ self.old.flusher.outboxes) ×
            (self.new.first ≡ self.old.first) × (self.new.refused ≡ self.old.refused) }
        ensures given { MatchBool result
            (GivesBack self.old.flusher.held self.new.flusher.held
            (given_of self.old.flusher.fetch) (given_of self.new.flusher.fetch))
            (self.new.flusher.held ≡ self.old.flusher.held) }
        ensures cause { result ≡ false → AreAllReleased self.old.flusher.held →
            ¬ (0 < places_in self.old.flusher.fetch) }
    {
        self.flusher.give_back()
    }

    /// The store. Each number that was released is stored.
    pub fn keeper(&self) -> &K
        ensures keeper { result.now ≡ self.now.flusher.store }
        ensures numbers { (s k : ℕ) (r : Receipt _ _) →
            slice_get (released_by s self.now.flusher.outboxes.items) k ≡ Some r →
            r.number ≤ (K.state self.now.flusher.store).stored.panel.count }
    {
        self.flusher.keeper()
    }

    /// Its board, its other parts and its history, as they are.
    pub fn into_ends(self) -> (B, FlusherParts<K, T>, Moments<J>)
        ensures board { result.0 ≡ self.flusher.board }
        ensures parts { (result.1.store ≡ self.flusher.store) ×
            (result.1.outboxes ≡ self.flusher.outboxes) × (result.1.fetch ≡ self.flusher.fetch) }
        ensures moments { result.2 ≡ self.recorder }
    {
        let RecordedFlusher {
            flusher,
            recorder,
            ..
        } = self;
        let (store, board, outboxes, fetch) = flusher.into_ends();
        let parts = FlusherParts {
            store,
            outboxes,
            fetch,
        };
        (board, parts, recorder.moments())
    }
}
