//! Each request is judged on the live plant, in one order.

ghost use Rattle.std.specs.Prelude.{◌≡◌, ℕ, ◌+◌, ◌<◌, ◌≤◌, ◌^◌, ◌++◌, [], ◌∷◌, length, slice_get, Some, None, OnSome, IfNone, IsSome, MatchBool};
ghost use Rattle.std.specs.List.{range_with_len};
ghost use Rattle.alm_model.specs.Judging.{IsLegal, accepted_of, after_verdict, entries_in, firsts_from, firsts_of, of_slot, serials_of, verdict_of, wants_of};
ghost use Rattle.alm_model.specs.Step.{run};
ghost use Rattle.alm_rings.specs.declared.inbox.Inbox.{Inbox};
ghost use Rattle.alm_rings.specs.Batches.{SameSealEnds, emptied_of, empties_in, places_of, sealed_of};
ghost use Rattle.alm_seq.specs.Spares.{spares};
ghost use Rattle.alm_rings.specs.Placed.{taken_by};
ghost use Rattle.alm_types.specs.Sizes.{most_actions, most_entries, most_out};

use crate::seal::Seal;
use crate::take::Take;
use alm_model::{Alarms, judge};
use alm_rings::{Console, Inbox, SealEnds, Told, requests_beside};
use alm_types::{Batch, Entry, Request, SLOTS, Slot, Verdict, Want};
use std::mem::replace;
use std::snapshot::Snapshot;

/// Takes requests from the slots, judges each on the live plant, and seals them in batches.
#[derive(Drop)]
pub struct Sequencer<P: Alarms + Drop> {
    inboxes: Vec<Inbox>,
    // The index of the inbox of each slot.
    places: [usize; SLOTS],
    pub ends: SealEnds,
    batch: Batch,
    spare: Option<Batch>,
    plant: P,
    base: Snapshot<P>,
    pub ghost placed: { (k : ℕ) (i : Inbox) → slice_get inboxes.items k ≡ Some i →
        slice_get places i.slot ≡ Some k },
    /// The sealed batches and then the open one are one legal history.
    pub ghost legal: { IsLegal (P.plant base.value)
        (entries_in (sealed_of ends) ++ batch.entries) },
    /// Of each slot they answer the requests that were taken, in order,
    pub ghost wants: { (s : ℕ) →
        wants_of (of_slot s (entries_in (sealed_of ends) ++ batch.entries)) ≡
        taken_by s inboxes.items },
    /// each once.
    pub ghost serials: { (s : ℕ) →
        serials_of (of_slot s (entries_in (sealed_of ends) ++ batch.entries)) ≡
        range_with_len 1 (length (taken_by s inboxes.items)) },
    pub ghost live: { P.plant plant ≡
        run (P.plant base.value) (accepted_of (entries_in (sealed_of ends) ++ batch.entries)) },
    pub ghost most: { (P.plant plant).panel.count ≤ most_actions },
    /// Each sealed batch begins after the accepted actions of those before it.
    pub ghost firsts: { firsts_of (sealed_of ends) ≡
        firsts_from ((P.plant base.value).panel.count + 1) (sealed_of ends) },
    pub ghost first: { batch.first ≡
        (P.plant base.value).panel.count + length (accepted_of (entries_in (sealed_of ends))) + 1 },
}

// Whether it has no entries.
fn is_empty(batch: &Batch) -> bool
    ensures { MatchBool result (batch.now.entries ≡ []) (0 < length batch.now.entries) }
{
    batch.entries().is_empty()
}

// The spare batch, or one of the empty ones that were returned.
fn empty_batch(spare: &mut Option<Batch>, ends: &mut SealEnds) -> Option<Batch>
    ensures ends { SameSealEnds ends.old ends.new }
    ensures sealed { (sealed_of ends.new ≡ sealed_of ends.old) ×
        (places_of ends.new ≡ places_of ends.old) }
    ensures some { OnSome result
        ((spare.new ≡ None) ×
        (length (emptied_of ends.new) + spares spare.old ≡ length (emptied_of ends.old) + 1)) }
    ensures none { IfNone result
        ((spare.new ≡ spare.old) × (emptied_of ends.new ≡ emptied_of ends.old)) }
    ensures cause { 0 < spares spare.old + length (empties_in ends.old) → IsSome result }
{
    match spare.take() {
        Some(batch) => Some(batch),
        None => ends.empty(),
    }
}

// Judges a request and puts it into the batch.
fn judge_into<P: Alarms>(
    plant: &mut P,
    batch: &mut Batch,
    slot: Slot,
    serial: u64,
    want: Want,
) -> Verdict
    requires { length batch.old.entries < most_entries }
    ensures verdict { result ≡
        verdict_of (P.plant plant.old) (record { slot = slot; want = want }) }
    ensures after { P.plant plant.new ≡ after_verdict (P.plant plant.old) result }
    ensures most { (P.plant plant.old).panel.count ≤ most_actions →
        (P.plant plant.new).panel.count ≤ most_actions }
    ensures first { batch.new.first ≡ batch.old.first }
    ensures entries { batch.new.entries ≡
        batch.old.entries ++
        record { slot = slot; serial = serial; want = want; verdict = result } ∷ [] }
{
    // for the proof: copies, since the prover does not follow a value after it was moved into a struct
    let asked = want;
    let of = slot;
    let request = Request {
        slot: of,
        want: asked,
    };
    let verdict = judge(plant, request);
    let answer = verdict;
    let entry = Entry {
        slot,
        serial,
        want,
        verdict: answer,
    };
    batch.push(entry);
    verdict
}

impl<P: Alarms + Drop> Sequencer<P> {
    ghost use Rattle.std.specs.Prelude.{◌≡◌, ◌≢◌, ◌<◌, ◌≤◌, ◌+◌, ◌^◌, ◌++◌, [], length, None, IsSome, IsTrue, ◌↔◌, Some};
    ghost use Rattle.rtrb.specs.Ring.{IsPair};
    ghost use Rattle.alm_rings.specs.Ends.{sent_of, received_of, coming_to, room_of, SameConsole};
    ghost use Rattle.alm_rings.specs.Batches.{SameSealEnds, sealed_of, empties_in, emptied_of};
    ghost use Rattle.alm_rings.specs.Placed.{AreApart, inbox_at, taken_by, waiting_by};
    ghost use Rattle.alm_seq.specs.Sequences.{TakeAnswers, SealAnswers, SameInboxes, SameSeals, live_of, history_of, live_base};

    /// The first batch is one of the empty ones that are known to wait.
    pub fn new(plant: P, inboxes: Vec<Inbox>, mut ends: SealEnds) -> Self
        requires apart { AreApart (λ i. i.slot) inboxes.items }
        requires taken { (s : ℕ) → taken_by s inboxes.items ≡ [] }
        requires sealed { sealed_of ends ≡ [] }
        requires empties { 0 < length (empties_in ends) }
        requires count { (P.plant plant).panel.count ≤ most_actions }
        ensures inboxes { result.inboxes ≡ inboxes }
        ensures ends { SameSealEnds ends result.ends × (sealed_of result.ends ≡ []) ×
            (length (emptied_of result.ends) ≡ length (emptied_of ends) + 1) }
        ensures new { (history_of result ≡ []) × (live_base result ≡ P.plant plant) ×
            (result.spare ≡ None) }
    {
        let mut places = [0; SLOTS];
        for place in 0..inboxes.len() {
            places[inboxes[place].slot().number() as usize] = place;
        }
        match ends.empty() {
            Some(mut batch) => {
                batch.restart(plant.count() + 1);
                Sequencer {
                    inboxes,
                    places,
                    ends,
                    batch,
                    spare: None,
                    base: Snapshot::of(&plant),
                    plant,
                }
            }
            None => unreachable!(),
        }
    }

    // The index of the inbox of a slot.
    fn place(&self, slot: Slot) -> usize
        requires { IsSome (inbox_at slot self.now.inboxes.items) }
        ensures limit { result < length self.now.inboxes.items }
        ensures slot { (i : Inbox) → slice_get self.now.inboxes.items result ≡ Some i →
            i.slot ≡ slot }
    {
        self.places[slot.number() as usize]
    }

    /// Takes the next request of a slot, judges it on the live plant and puts it into the open batch.
    pub fn take(&mut self, slot: Slot) -> Take
        requires { IsSome (inbox_at slot self.old.inboxes.items) }
        ensures seals { SameSeals self.old self.new }
        ensures inboxes { SameInboxes self.old.inboxes.items self.new.inboxes.items }
        ensures answer { TakeAnswers result slot self.old self.new }
    {
        if self.batch.is_full() {
            return Take::BatchFull;
        }
        let place = self.place(slot);
        let inbox = &mut self.inboxes[place];
        match inbox.take() {
            None => Take::Empty,
            Some((serial, want)) => {
                let verdict = judge_into(&mut self.plant, &mut self.batch, slot, serial, want);
                Take::Taken(verdict)
            }
        }
    }

    /// Seals the open batch, and opens an empty one.
    pub fn seal(&mut self) -> Seal
        ensures ends { SameSealEnds self.old.ends self.new.ends }
        ensures inboxes { self.new.inboxes ≡ self.old.inboxes }
        ensures base { self.new.base.value ≡ self.old.base.value }
        ensures answer { SealAnswers result self.old self.new }
    {
        if is_empty(&self.batch) {
            return Seal::NothingToSeal;
        }
        let Some(spare) = empty_batch(&mut self.spare, &mut self.ends) else {
            return Seal::NoRoom;
        };
        let full = replace(&mut self.batch, spare);
        match self.ends.seal(full) {
            Ok(()) => {
                self.batch.restart(self.plant.count() + 1);
                Seal::Sealed
            }
            Err(back) => {
                self.spare = Some(replace(&mut self.batch, back));
                Seal::NoRoom
            }
        }
    }

    /// Synchronises a slot's inbox and the console at its other end, in one thread: each learns what the other did.
    /// Takes no memory.
    pub fn requests_beside<T: Told + Drop>(&mut self, slot: Slot, console: &mut Console<T>)
        requires slot { IsSome (inbox_at slot self.old.inboxes.items) }
        requires ends { (i : Inbox) → inbox_at slot self.old.inboxes.items ≡ Some i →
            IsPair console.old.requests i.requests }
        ensures seals { SameSeals self.old self.new × (self.new.batch ≡ self.old.batch) }
        ensures taken { (s : ℕ) →
            taken_by s self.new.inboxes.items ≡ taken_by s self.old.inboxes.items }
        ensures inboxes { SameInboxes self.old.inboxes.items self.new.inboxes.items }
        ensures others { (s : ℕ) → s ≢ slot →
            inbox_at s self.new.inboxes.items ≡ inbox_at s self.old.inboxes.items }
        ensures ends { (i : Inbox) → inbox_at slot self.new.inboxes.items ≡ Some i →
            IsPair console.new.requests i.requests }
        ensures console { SameConsole console.old console.new ×
            (sent_of console.new ≡ sent_of console.old) ×
            (received_of console.new ≡ received_of console.old) ×
            (coming_to console.new ≡ coming_to console.old) }
        ensures requests { taken_by slot self.new.inboxes.items ++
            waiting_by slot self.new.inboxes.items ≡ sent_of console.new }
        ensures serials { length (sent_of console.new) < 2 ^ 64 }
        ensures few { length (sent_of console.new) ≤ most_out + length (received_of console.new) }
        ensures room { most_out + length (taken_by slot self.new.inboxes.items) ≤
            room_of console.new + length (sent_of console.new) }
    {
        let place = self.place(slot);
        requests_beside(console, &mut self.inboxes[place]);
    }

    /// Its ends, as they are.
    pub fn into_ends(self) -> (Vec<Inbox>, SealEnds)
        ensures inboxes { result.0 ≡ self.inboxes }
        ensures ends { result.1 ≡ self.ends }
    {
        (self.inboxes, self.ends)
    }

    /// Whether a request of a slot is known to wait.
    pub fn waits(&self, slot: Slot) -> bool
        requires { IsSome (inbox_at slot self.now.inboxes.items) }
        ensures { IsTrue result ↔ (0 < length (waiting_by slot self.now.inboxes.items)) }
    {
        let place = self.place(slot);
        self.inboxes[place].waits()
    }

    /// The plant of all that was accepted. The sealed batches and then the open one are one legal history, as of a single thread.
    /// Of each slot they answer the requests that were taken, each once, in order.
    pub fn live(&self) -> &P
        ensures live { P.plant result.now ≡ live_of self.now }
        ensures legal { IsLegal (live_base self.now) (history_of self.now) }
        ensures wants { (s : ℕ) →
            wants_of (of_slot s (history_of self.now)) ≡ taken_by s self.now.inboxes.items }
        ensures serials { (s : ℕ) →
            serials_of (of_slot s (history_of self.now)) ≡
            range_with_len 1 (length (taken_by s self.now.inboxes.items)) }
        ensures firsts { firsts_of (sealed_of self.now.ends) ≡
            firsts_from ((live_base self.now).panel.count + 1) (sealed_of self.now.ends) }
    {
        &self.plant
    }
}
