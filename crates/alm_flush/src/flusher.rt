//! Commits the fetched batches, one after the other, publishes them, and releases their verdicts.

ghost use Rattle.std.specs.Prelude.{◌≡◌, ◌≢◌, ℕ, ◌⊎◌, ◌+◌, ◌<◌, ◌≤◌, ◌++◌, [], length, slice_get, Some, true};
ghost use Rattle.alm_model.specs.Judging.{accepted_of, when_accepted, logged_of, entries_in, of_slot};
ghost use Rattle.alm_model.specs.Rules.{admits_all};
ghost use Rattle.alm_model.specs.Step.{run};
ghost use Rattle.alm_rings.specs.declared.outbox.Outbox.{Outbox};
ghost use Rattle.alm_rings.specs.declared.receipt.Receipt.{Receipt};
ghost use Rattle.alm_rings.specs.Batches.{fetched_of};
ghost use Rattle.alm_rings.specs.Placed.{released_by};
ghost use Rattle.alm_board.specs.PrefixesOf.{IsPrefixOf};
ghost use Rattle.alm_store.specs.declared.phase.Phase.TheVariants.{Committing};
ghost use Rattle.alm_flush.specs.HeldBatch.{batches_of, waiting_of, ready_of, stored_of, published_entries, released_entries};
ghost use Rattle.alm_flush.specs.Replies.{replies_in, replies_to};
ghost use Rattle.alm_types.specs.Sizes.{most_out};

use crate::advance::Advance;
use crate::commit::{advance_by, few, go_on, open_between};
use crate::fetch::Fetch;
use crate::held::Held;
use crate::publishes::Publishes;
use crate::release::Release;
use alm_board::{Board, Publish, Voucher};
use alm_rings::{
    Console, FetchEnds, Outbox, Receipt, SealEnds, Told, batches_beside, replies_beside,
};
use alm_store::{Phase, Store};
use alm_types::{Entry, SLOTS, Slot, Verdict};
use std::mem::replace;
use std::snapshot::Snapshot;

/// Released means stored and published.
#[derive(Drop)]
pub struct Flusher<K: Store, T: Told + Drop, B: Board<Told = T>> {
    store: K,
    board: B,
    outboxes: Vec<Outbox<T>>,
    // The index of each slot's outbox; not below their number if it has none.
    places: [usize; SLOTS],
    fetch: FetchEnds,
    held: Held,
    // The number of the last action whose verdict is released.
    number: u64,
    // The ends before the first batch was held.
    before: Snapshot<FetchEnds>,
    pub ghost placed: { (k : ℕ) (o : Outbox _ _) → slice_get outboxes.items k ≡ Some o →
        slice_get places o.slot ≡ Some k },
    pub ghost back: { (s k : ℕ) (o : Outbox _ _) → slice_get places s ≡ Some k →
        slice_get outboxes.items k ≡ Some o → o.slot ≡ s },
    pub ghost held_is: { fetched_of fetch ≡ fetched_of before.value ++ batches_of held },
    /// What is stored,
    pub ghost stored: { (K.state store).stored ≡
        run (B.base board) (accepted_of (entries_in (fetched_of before.value) ++ stored_of held)) },
    /// what is published: a prefix of it,
    pub ghost published: { B.published board ≡
        accepted_of (entries_in (fetched_of before.value) ++ published_entries held) },
    /// with the requests of those entries,
    pub ghost logged: { B.logged board ≡
        logged_of (entries_in (fetched_of before.value) ++ published_entries held) },
    pub ghost pending: { IsPrefixOf (B.pending board) (logged_of (ready_of held)) },
    /// and what is released to each slot.
    pub ghost released: { (s : ℕ) →
        replies_in (released_by s outboxes.items) ≡
        replies_to (of_slot s (entries_in (fetched_of before.value) ++ released_entries held)) },
    pub ghost number_is: { number ≡
        (B.base board).panel.count +
        length (accepted_of (entries_in (fetched_of before.value) ++ released_entries held)) },
    /// The numbers that were released are stored.
    pub ghost numbers: { (s k : ℕ) (r : Receipt _ _) →
        slice_get (released_by s outboxes.items) k ≡ Some r → r.number ≤ number },
    pub ghost idle: { accepted_of (waiting_of held) ≡ [] → (K.state store).phase ≢ Committing },
    pub ghost next: { (K.state store).phase ≡ Committing →
        (K.state store).next ≡ run (K.state store).stored (accepted_of (waiting_of held)) },
    /// What is being committed is admitted, and what is to be published.
    pub ghost admitted: { (K.state store).phase ≡ Committing →
        admits_all (K.state store).stored (accepted_of (waiting_of held)) ≡ true },
    pub ghost ready: { admits_all (run (B.base board) (B.published board))
        (accepted_of (ready_of held)) ≡ true },
    /// The plant that the store is about to hold is the stored one, or the one with the held batch.
    pub ghost either: { ∥ ((K.state store).next ≡ (K.state store).stored) ⊎
        ((K.state store).next ≡ run (K.state store).stored (accepted_of (waiting_of held))) ∥₁ },
}

// The number that a receipt has with this verdict, after the number before it.
fn number_of(verdict: Verdict, before: u64, count: u64) -> u64
    requires { before + length (when_accepted verdict) ≤ count }
    ensures { result ≡ before + length (when_accepted verdict) }
{
    match verdict {
        Verdict::Accepted(_) => {
            // for the proof: `count` is a number of 64 bits, so `before + 1` is one too
            let _most = count;
            before + 1
        }
        Verdict::Refused(_, _) => before,
    }
}

impl<K: Store, T: Told + Drop, B: Board<Told = T>> Flusher<K, T, B> {
    ghost use Rattle.std.specs.Prelude.{◌≡◌, ◌≢◌, ◌↔◌, ◌⊎◌, ◌+◌, ◌<◌, ◌≤◌, ◌++◌, [], ℕ, List, length, MatchBool, false, slice_get, Some, None, IsSome, IsTrue};
    ghost use Rattle.alm_disk.specs.Failures.{HasFailed};
    ghost use Rattle.alm_model.specs.Judging.{accepted_of, logged_of};
    ghost use Rattle.alm_types.specs.declared.action.Action.{Action};
    ghost use Rattle.alm_store.specs.Pace.{least_segment};
    ghost use Rattle.alm_store.specs.Pacing.{KeepsPace};
    ghost use Rattle.alm_rings.specs.Batches.{AreBatchEnds, SameSealEnds, SameFetchEnds, sealed_of, fetched_of, given_of, emptied_of, empties_in, coming_in, places_of, places_in};
    ghost use Rattle.alm_rings.specs.Placed.{AreApart, outbox_at, released_by, room_by, SameOutboxAt};
    ghost use Rattle.alm_rings.specs.Ends.{sent_of, received_of, coming_to, room_of, SameConsole};
    ghost use Rattle.rtrb.specs.Ring.{IsPair};
    ghost use Rattle.alm_rings.specs.declared.outbox.Outbox.{Outbox};
    ghost use Rattle.alm_flush.specs.Flushes.{FetchAnswers, AdvanceAnswers, PublishAnswers, ReleaseAnswers, GivesBack, AreAllReleased, IsFree, IsGivenUp, IsNext};
    ghost use Rattle.alm_flush.specs.HeldBatch.{next_entry_of, ready_of, to_commit};
    ghost use Rattle.alm_flush.specs.Steps.{CallsDevice, EndsWithin, HasCauses, IsAsBefore, IsInOrder, OpensBehind, OpensBetween, StaysInPace};
    ghost use Rattle.alm_rings.specs.declared.receipt.Receipt.{Receipt};

    /// No batch is held at first. The store has no work begun, and the board shows the plant that is stored.
    pub fn new(store: K, board: B, outboxes: Vec<Outbox<T>>, fetch: FetchEnds) -> Self
        requires apart { AreApart (λ o. o.slot) outboxes.items }
        requires released { (s : ℕ) → released_by s outboxes.items ≡ [] }
        requires fetched { fetched_of fetch ≡ [] }
        requires idle { (K.state store).phase ≡ Phase.Idle }
        requires stored { (K.state store).stored ≡ B.base board }
        requires new_board { (B.published board ≡ []) × (B.logged board ≡ []) ×
            (B.pending board ≡ []) }
        ensures parts { (result.store ≡ store) × (result.board ≡ board) ×
            (result.outboxes ≡ outboxes) × (result.fetch ≡ fetch) }
        ensures held { (result.held ≡ Held.Nothing) × (result.before.value ≡ fetch) }
    {
        let mut places = [outboxes.len(); SLOTS];
        for place in 0..outboxes.len() {
            places[outboxes[place].slot().number() as usize] = place;
        }
        Flusher {
            number: store.count(),
            before: Snapshot::of(&fetch),
            store,
            board,
            outboxes,
            places,
            fetch,
            held: Held::Nothing,
        }
    }

    /// Whether a sealed batch is known to wait.
    pub fn waits(&self) -> bool
        ensures { IsTrue result ↔ (0 < length (coming_in self.now.fetch)) }
    {
        self.fetch.waits()
    }

    /// The entry whose verdict is the next to be released.
    pub fn next(&self) -> Option<Entry>
        ensures { result ≡ next_entry_of self.now.held }
    {
        self.held.next()
    }

    /// Fetches the next sealed batch.
    pub fn fetch(&mut self) -> Fetch
        ensures ends { SameFetchEnds self.old.fetch self.new.fetch ×
            (given_of self.new.fetch ≡ given_of self.old.fetch) ×
            (places_in self.new.fetch ≡ places_in self.old.fetch) }
        ensures same { (self.new.board ≡ self.old.board) × (self.new.outboxes ≡ self.old.outboxes) ×
            (self.new.before.value ≡ self.old.before.value) }
        ensures kept { result ≢ Fetch.Got → self.new.store ≡ self.old.store }
        // The store counts what a checkpoint writes from here on; else it is as before.
        ensures marked { result ≡ Fetch.Got → (K.state self.new.store).written ≡ 0 }
        ensures store { IsAsBefore K.Store self.old.store self.new.store }
        // A store that keeps its pace still does so, and takes the batch if its half is of the newest version.
        ensures pace { KeepsPace (K.state self.old.store) →
            KeepsPace (K.state self.new.store) }
        ensures taken { result ≡ Fetch.Got → K.newest self.new.store →
            least_segment ≤ (K.state self.new.store).segment →
            KeepsPace (K.state self.new.store) →
            K.takes self.new.store (to_commit self.new.held) }
        ensures answer { FetchAnswers result self.old.held self.new.held self.old.fetch
            self.new.fetch }
    {
        match self.held {
            Held::Nothing => match self.fetch.fetch() {
                Some(batch) => {
                    self.store.mark();
                    few(&batch);
                    self.held = Held::Fetched(batch);
                    Fetch::Got
                }
                None => Fetch::Empty,
            },
            _ => Fetch::Held,
        }
    }

    /// One step of the held batch's commit: at most one device call, and none for a batch without actions. A checkpoint comes
    /// first if the store doesn't take the batch. After a commit has failed it fails permanently.
    ///
    /// If more than half of the segment is used after a commit, a checkpoint is opened. It goes out in pieces: one before each
    /// commit of a batch that is taken, and one after the other as long as no batch is to be committed.
    pub fn advance(&mut self) -> Advance
        ensures same { (self.new.board ≡ self.old.board) × (self.new.outboxes ≡ self.old.outboxes) ×
            (self.new.before.value ≡ self.old.before.value) × (self.new.fetch ≡ self.old.fetch) }
        ensures device { CallsDevice K.Store K.Device.Disk result (to_commit self.old.held)
            self.old.store self.new.store }
        // No call is made if there is no work, nor after a commit has failed permanently.
        ensures nothing { (result ≡ Advance.Nothing → self.new.store ≡ self.old.store) ×
            (IsGivenUp self.old.held → self.new.store ≡ self.old.store) }
        ensures held { AdvanceAnswers result (K.state self.old.store).phase self.old.held
            self.new.held }
        ensures going { (K.state self.old.store).phase ≢ Phase.Stopped → result ≢ Advance.Failed →
            (K.state self.new.store).phase ≢ Phase.Stopped }
        ensures at_rest { result ≡ Advance.Committed →
            (K.state self.new.store).phase ≢ Phase.Committing }
        ensures order { IsInOrder K.Store result (to_commit self.old.held) self.old.store
            self.new.store }
        ensures behind { OpensBehind K.Store result self.old.store self.new.store }
        ensures pace { StaysInPace K.Store result self.old.store self.new.store }
        // A batch is committed in a bounded number of steps: 326 if the store is idle.
        ensures ends { (m : ℕ) → result ≡ Advance.More → 0 < length (to_commit self.old.held) →
            EndsWithin K.Store (m + 1) (to_commit self.old.held) self.old.store →
            EndsWithin K.Store m (to_commit self.new.held) self.new.store }
        // A failure has a cause; if no checkpoint can begin, only the device.
        ensures causes { HasCauses K.Store K.Device.Disk result (to_commit self.old.held)
            (IsNext self.old.held (K.state self.old.store).stored) self.old.store self.new.store }
        ensures broken { result ≡ Advance.Failed → (K.state self.old.store).phase ≢ Phase.Stopped →
            IsFree self.old.held →
            HasFailed (K.Device.failures (K.disk self.old.store))
            (K.Device.failures (K.disk self.new.store)) }
    {
        match replace(&mut self.held, Held::Nothing) {
            Held::Fetched(batch) => {
                let advanced = advance_by(&mut self.store, &batch);
                match advanced {
                    Advance::Committed => self.held = Held::Committed(batch),
                    Advance::More => self.held = Held::Fetched(batch),
                    Advance::Failed => self.held = Held::Failed(batch),
                    Advance::Nothing => self.held = Held::Fetched(batch),
                }
                advanced
            }
            Held::Failed(batch) => {
                self.held = Held::Failed(batch);
                Advance::Failed
            }
            held => {
                self.held = held;
                go_on(&mut self.store)
            }
        }
    }

    /// Opens a checkpoint between two batches: it writes the plant of this store into the other half, which then stands in place of
    /// one that was found damaged. It is opened if no batch is held, no work is under way and epochs are left. Whether it was: no
    /// device call.
    pub fn heal(&mut self) -> bool
        ensures same { (self.new.board ≡ self.old.board) × (self.new.outboxes ≡ self.old.outboxes) ×
            (self.new.before.value ≡ self.old.before.value) × (self.new.fetch ≡ self.old.fetch) ×
            (self.new.held ≡ self.old.held) }
        ensures opens { OpensBetween K.Store result self.old.store self.new.store }
        // No batch waits for it.
        ensures between { IsTrue result → self.old.held ≡ Held.Nothing }
        ensures sure { self.old.held ≡ Held.Nothing → (K.state self.old.store).phase ≡ Phase.Idle →
            ¬ (K.exhausted self.old.store) → IsTrue result }
    {
        match self.held {
            Held::Nothing => open_between(&mut self.store),
            _ => false,
        }
    }

    /// Shows the committed batch.
    pub fn publish<C, V: Voucher>(&mut self, by: &C, voucher: &V) -> Publishes
    where
        B: Publish<C, V>,
        requires vouched { V.vouches voucher.now
            (B.Board.published self.old.board ++ accepted_of (ready_of self.old.held)) }
        ensures same { (self.new.store ≡ self.old.store) × (self.new.outboxes ≡ self.old.outboxes) ×
            (self.new.before.value ≡ self.old.before.value) × (self.new.fetch ≡ self.old.fetch) }
        ensures base { B.Board.base self.new.board ≡ B.Board.base self.old.board }
        ensures held { PublishAnswers result self.old.held self.new.held }
        ensures sure { B.Publish.sure → result ≢ Publishes.OutOfMemory }
    {
        match replace(&mut self.held, Held::Nothing) {
            Held::Committed(batch) => match self.board.publish(by, voucher, &batch) {
                Ok(()) => {
                    self.held = Held::Published(batch, 0);
                    Publishes::Published
                }
                Err(_) => {
                    self.held = Held::Committed(batch);
                    Publishes::OutOfMemory
                }
            },
            held => {
                self.held = held;
                Publishes::NotYet
            }
        }
    }

    /// Returns the batch after all its verdicts are released.
    pub fn give_back(&mut self) -> bool
        ensures ends { SameFetchEnds self.old.fetch self.new.fetch ×
            (fetched_of self.new.fetch ≡ fetched_of self.old.fetch) ×
            (coming_in self.new.fetch ≡ coming_in self.old.fetch) }
        ensures same { (self.new.store ≡ self.old.store) × (self.new.board ≡ self.old.board) ×
            (self.new.outboxes ≡ self.old.outboxes) }
        ensures given { MatchBool result
            (GivesBack self.old.held self.new.held (given_of self.old.fetch)
            (given_of self.new.fetch))
            ((self.new.held ≡ self.old.held) × (given_of self.new.fetch ≡ given_of self.old.fetch) ×
            (self.new.before.value ≡ self.old.before.value)) }
        ensures cause { result ≡ false → AreAllReleased self.old.held →
            ¬ (0 < places_in self.old.fetch) }
    {
        match self.held.next() {
            Some(_) => return false,
            None => {}
        }
        match replace(&mut self.held, Held::Nothing) {
            Held::Published(batch, released) => match self.fetch.give_back(batch) {
                Ok(()) => {
                    self.before = Snapshot::of(&self.fetch);
                    true
                }
                Err(batch) => {
                    self.held = Held::Published(batch, released);
                    false
                }
            },
            held => {
                self.held = held;
                false
            }
        }
    }

    // The index of a slot's outbox; not below their number if it has none.
    fn place(&self, slot: Slot) -> usize
        ensures slot { (o : Outbox _ _) → slice_get self.now.outboxes.items result ≡ Some o →
            o.slot ≡ slot }
        ensures missing { length self.now.outboxes.items ≤ result →
            outbox_at slot self.now.outboxes.items ≡ None }
    {
        self.places[slot.number() as usize]
    }

    /// Releases the next verdict to its slot; the receipt reports the published list.
    pub fn release(&mut self) -> Release
        ensures ends { (s : ℕ) →
            SameOutboxAt (outbox_at s self.old.outboxes.items)
            (outbox_at s self.new.outboxes.items) }
        ensures same { (self.new.store ≡ self.old.store) × (self.new.board ≡ self.old.board) ×
            (self.new.before.value ≡ self.old.before.value) × (self.new.fetch ≡ self.old.fetch) }
        ensures answer { ReleaseAnswers result self.old.held self.new.held self.old.outboxes.items
            self.new.outboxes.items (B.base self.old.board) (K.state self.old.store).stored
            (B.published self.old.board) }
    {
        let Some(entry) = self.held.next() else {
            return Release::Nothing;
        };
        let slot = entry.slot;
        let count = self.store.count();
        let number = number_of(entry.verdict, self.number, count);
        let place = self.place(slot);
        if place >= self.outboxes.len() {
            return Release::Full(slot);
        }
        let told = self.board.tell();
        let receipt = Receipt {
            slot: entry.slot,
            serial: entry.serial,
            verdict: entry.verdict,
            number,
            told,
        };
        let outbox = &mut self.outboxes[place];
        match outbox.release(receipt) {
            Ok(()) => {
                self.number = number;
                self.held.pass();
                Release::Released(slot)
            }
            Err(receipt) => {
                drop(receipt);
                Release::Full(slot)
            }
        }
    }

    /// Synchronises the ends of both batch rings, which must be in the same thread: each learns what the other did.
    /// Takes no memory.
    pub fn batches_beside(&mut self, seal: &mut SealEnds)
        requires { AreBatchEnds seal.old self.old.fetch }
        ensures same { (self.new.store ≡ self.old.store) × (self.new.board ≡ self.old.board) ×
            (self.new.outboxes ≡ self.old.outboxes) ×
            (self.new.before.value ≡ self.old.before.value) × (self.new.held ≡ self.old.held) }
        ensures ends { AreBatchEnds seal.new self.new.fetch × SameSealEnds seal.old seal.new ×
            SameFetchEnds self.old.fetch self.new.fetch }
        ensures sealed { (sealed_of seal.new ≡ sealed_of seal.old) ×
            (fetched_of self.new.fetch ≡ fetched_of self.old.fetch) }
        ensures empties { (emptied_of seal.new ≡ emptied_of seal.old) ×
            (given_of self.new.fetch ≡ given_of self.old.fetch) }
        ensures fetched { fetched_of self.new.fetch ++ coming_in self.new.fetch ≡
            sealed_of seal.new }
        ensures emptied { emptied_of seal.new ++ empties_in seal.new ≡ given_of self.new.fetch }
        ensures places { 8 + length (fetched_of self.new.fetch) ≤
            places_of seal.new + length (sealed_of seal.new) }
        ensures back { 8 + length (emptied_of seal.new) ≤
            places_in self.new.fetch + length (given_of self.new.fetch) }
    {
        batches_beside(seal, &mut self.fetch);
    }

    /// Synchronises a slot's outbox and the console at its other end, in one thread: each learns what the other did.
    /// Takes no memory.
    pub fn replies_beside(&mut self, slot: Slot, console: &mut Console<T>)
        requires slot { IsSome (outbox_at slot self.old.outboxes.items) }
        requires ends { (o : Outbox _ _) → outbox_at slot self.old.outboxes.items ≡ Some o →
            IsPair o.replies console.old.replies }
        ensures same { (self.new.store ≡ self.old.store) × (self.new.board ≡ self.old.board) ×
            (self.new.before.value ≡ self.old.before.value) × (self.new.fetch ≡ self.old.fetch) ×
            (self.new.held ≡ self.old.held) }
        ensures released { (s : ℕ) →
            released_by s self.new.outboxes.items ≡ released_by s self.old.outboxes.items }
        ensures outboxes { (s : ℕ) →
            SameOutboxAt (outbox_at s self.old.outboxes.items)
            (outbox_at s self.new.outboxes.items) }
        ensures others { (s : ℕ) → s ≢ slot →
            outbox_at s self.new.outboxes.items ≡ outbox_at s self.old.outboxes.items }
        ensures ends { (o : Outbox _ _) → outbox_at slot self.new.outboxes.items ≡ Some o →
            IsPair o.replies console.new.replies }
        ensures console { SameConsole console.old console.new ×
            (received_of console.new ≡ received_of console.old) ×
            (sent_of console.new ≡ sent_of console.old) ×
            (room_of console.new ≡ room_of console.old) }
        ensures replies { received_of console.new ++ coming_to console.new ≡
            released_by slot self.new.outboxes.items }
        ensures room { most_out + length (received_of console.new) ≤
            room_by slot self.new.outboxes.items +
            length (released_by slot self.new.outboxes.items) }
    {
        let place = self.place(slot);
        if place < self.outboxes.len() {
            replies_beside(console, &mut self.outboxes[place]);
        }
    }

    /// Its store, its board and its ends, as they are.
    pub fn into_ends(self) -> (K, B, Vec<Outbox<T>>, FetchEnds)
        ensures { (result.0 ≡ self.store) × (result.1 ≡ self.board) × (result.2 ≡ self.outboxes) ×
            (result.3 ≡ self.fetch) }
    {
        let Flusher {
            store,
            board,
            outboxes,
            places: _,
            fetch,
            held: _,
            number: _,
            before: _,
        } = self;
        (store, board, outboxes, fetch)
    }

    /// Its store alone.
    pub fn into_keeper(self) -> K
    where
        B: Drop,
        ensures keeper { result ≡ self.store }
    {
        self.store
    }

    /// The board. The receipts released to a slot have, in order, the verdicts of that slot's entries in the batches
    /// fetched, as far as the flusher has got.
    pub fn board(&self) -> &B
        ensures board { result.now ≡ self.now.board }
        // What is published was asked for by the requests of the entries, as far as they are published.
        ensures logged { B.logged self.now.board ≡
            logged_of (entries_in (fetched_of self.now.before.value) ++
            published_entries self.now.held) }
        ensures stands { fetched_of self.now.fetch ≡
            fetched_of self.now.before.value ++ batches_of self.now.held }
        ensures released { (s : ℕ) →
            replies_in (released_by s self.now.outboxes.items) ≡
            replies_to
            (of_slot s
            (entries_in (fetched_of self.now.before.value) ++ released_entries self.now.held)) }
    {
        &self.board
    }

    /// The ends of both rings of batches.
    pub fn fetch_ends(&self) -> &FetchEnds
        ensures { result.now ≡ self.now.fetch }
    {
        &self.fetch
    }

    /// The store. The published list is a prefix of the one that is stored, and each number that was released is
    /// stored.
    pub fn keeper(&self) -> &K
        ensures keeper { result.now ≡ self.now.store }
        ensures prefix { (list : List Action) ×
            (((K.state self.now.store).stored ≡ run (B.base self.now.board) list) ×
            IsPrefixOf (B.published self.now.board) list) }
        ensures numbers { (s k : ℕ) (r : Receipt _ _) →
            slice_get (released_by s self.now.outboxes.items) k ≡ Some r →
            r.number ≤ (K.state self.now.store).stored.panel.count }
    {
        &self.store
    }
}
