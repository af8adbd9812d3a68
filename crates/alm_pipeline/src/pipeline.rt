//! All parts from request to receipt in one thread, and what each step does with them.

ghost use Rattle.std.specs.Prelude.{◌≡◌, ◌<◌, ℕ, length, slice_get, Some, IsSome};
ghost use Rattle.rtrb.specs.Ring.{IsPair};
ghost use Rattle.alm_rings.specs.declared.console.Console.{Console};
ghost use Rattle.alm_rings.specs.declared.inbox.Inbox.{Inbox};
ghost use Rattle.alm_rings.specs.declared.outbox.Outbox.{Outbox};
ghost use Rattle.alm_rings.specs.Placed.{inbox_at, outbox_at};
ghost use Rattle.alm_rings.specs.Batches.{AreBatchEnds};
ghost use Rattle.alm_pipeline.specs.World.{World, Answers, after_step};
ghost use Rattle.alm_pipeline.specs.declared.step.Step.TheVariants as S;
ghost use Rattle.alm_types.specs.Sizes.{slot_count};

use crate::step::Step;
use crate::step_event::StepEvent;
use alm_board::{Look, PlainBoard, PlainTold, Seen};
use alm_flush::{Advance, Fetch, Flusher, Publishes, Release};
use alm_plant::Plant;
use alm_rings::{Console, Receipt};
use alm_seq::{Seal, Sequencer, Take};
use alm_store::Store;
use alm_types::{Answer, Query, Slot, Want};

/// All parts from request to receipt over a store: the consoles of all slots, the sequencer and the flusher with its board.
#[derive(Drop)]
pub struct Pipeline<K: Store> {
    pub consoles: Vec<Console<PlainTold>>,
    pub sequencer: Sequencer<Plant>,
    pub flusher: Flusher<K, PlainTold, PlainBoard<Plant>>,
    pub ghost count: { length consoles.items ≡ slot_count },
    pub ghost inboxes: { (s : ℕ) → s < slot_count → IsSome (inbox_at s sequencer.inboxes.items) },
    pub ghost outboxes: { (s : ℕ) → s < slot_count → IsSome (outbox_at s flusher.outboxes.items) },
    pub ghost requests: { (s : ℕ) (c : Console _ _) (i : Inbox) →
        slice_get consoles.items s ≡ Some c → inbox_at s sequencer.inboxes.items ≡ Some i →
        IsPair c.requests i.requests },
    pub ghost replies: { (s : ℕ) (c : Console _ _) (o : Outbox _ _) →
        slice_get consoles.items s ≡ Some c → outbox_at s flusher.outboxes.items ≡ Some o →
        IsPair o.replies c.replies },
    pub ghost batches: { AreBatchEnds sequencer.ends flusher.fetch },
    pub ghost bases: { sequencer.base.value ≡ flusher.board.base.value },
}

impl<K: Store> Pipeline<K> {
    ghost use Rattle.std.specs.Prelude.{◌≡◌, ◌↔◌, ◌≤◌, ◌<◌, ◌+◌, ℕ, length, slice_get, IsSome};
    ghost use Rattle.alm_flush.specs.HeldBatch.{to_commit};
    ghost use Rattle.alm_pipeline.specs.Matches.{MatchesWorld, MatchesOpenWorld, DeviceFailed, LeavesDevice, StaysHonest, disk_of, KnowsAtSlot, KnowsAll, CallFits, CallsSurely, CommitsIn, EndsAfter, StepsInPace, event_of_call, IsInner, sight_in};
    ghost use Rattle.alm_pipeline.specs.declared.step.Step.TheVariants as S;
    ghost use Rattle.alm_pipeline.specs.Headline.{Moves, Headline};
    ghost use Rattle.alm_rings.specs.Batches.{emptied_of, given_of};

    // Synchronises the ends of the batch rings: each learns what the others did.
    fn tell_batches(&mut self)
        ensures open { (w : World) → MatchesOpenWorld w self.old → MatchesOpenWorld w self.new }
        ensures knows { KnowsAll self.new }
        ensures same { (self.new.consoles ≡ self.old.consoles) ×
            (self.new.sequencer.inboxes ≡ self.old.sequencer.inboxes) ×
            (self.new.flusher.outboxes ≡ self.old.flusher.outboxes) ×
            (self.new.flusher.held ≡ self.old.flusher.held) }
        ensures empties { (emptied_of self.new.sequencer.ends ≡
            emptied_of self.old.sequencer.ends) ×
            (given_of self.new.flusher.fetch ≡ given_of self.old.flusher.fetch) }
        ensures store { self.new.flusher.store ≡ self.old.flusher.store }
    {
        self.flusher.batches_beside(&mut self.sequencer.ends);
    }

    // Synchronises the ends of a slot: each learns what the others did.
    fn tell(&mut self, slot: Slot)
        ensures open { (w : World) → MatchesOpenWorld w self.old → MatchesOpenWorld w self.new }
        ensures knows { KnowsAtSlot slot self.new }
        ensures there { IsSome (slice_get self.new.consoles.items slot) }
        ensures held { self.new.flusher.held ≡ self.old.flusher.held }
        ensures store { self.new.flusher.store ≡ self.old.flusher.store }
    {
        let console = &mut self.consoles[slot.number() as usize];
        self.sequencer.requests_beside(slot, console);
        self.flusher.replies_beside(slot, console);
    }

    // Synchronises all of them.
    fn tell_all(&mut self, slot: Slot)
        ensures open { (w : World) → MatchesOpenWorld w self.old → MatchesOpenWorld w self.new }
        ensures knows { KnowsAtSlot slot self.new × KnowsAll self.new }
        ensures there { IsSome (slice_get self.new.consoles.items slot) }
        ensures held { self.new.flusher.held ≡ self.old.flusher.held }
        ensures store { self.new.flusher.store ≡ self.old.flusher.store }
    {
        self.tell(slot);
        self.tell_batches();
    }

    /// A slot sends a request.
    pub fn send(&mut self, slot: Slot, want: Want) -> StepEvent
        ensures answer { (w : World) → MatchesOpenWorld w self.old → Answers w (S.Send slot want) result }
        ensures fits { (w : World) → MatchesOpenWorld w self.old →
            MatchesOpenWorld (after_step w (S.Send slot want) result) self.new }
        ensures store { self.new.flusher.store ≡ self.old.flusher.store }
    {
        self.tell_all(slot);
        let console = &mut self.consoles[slot.number() as usize];
        match console.send(want) {
            Ok(serial) => StepEvent::Sent(serial),
            Err(_) => StepEvent::Busy,
        }
    }

    /// The next request of a slot is judged and joins the open batch. First it is checked whether one waits, so Skipped means
    /// that none does.
    pub fn take(&mut self, slot: Slot) -> StepEvent
        ensures answer { (w : World) → MatchesOpenWorld w self.old → Answers w (S.Take slot) result }
        ensures fits { (w : World) → MatchesOpenWorld w self.old →
            MatchesOpenWorld (after_step w (S.Take slot) result) self.new }
        ensures store { self.new.flusher.store ≡ self.old.flusher.store }
    {
        self.tell_all(slot);
        if !self.sequencer.waits(slot) {
            return StepEvent::Skipped;
        }
        match self.sequencer.take(slot) {
            Take::Taken(verdict) => StepEvent::Took(verdict),
            Take::Empty => StepEvent::Skipped,
            Take::BatchFull => StepEvent::Skipped,
        }
    }

    /// The open batch is sealed. Its ends are synchronised once more, so that the batch that was opened is known to have been
    /// free.
    pub fn seal(&mut self) -> StepEvent
        ensures answer { (w : World) → MatchesOpenWorld w self.old → Answers w S.Seal result }
        ensures fits { (w : World) → MatchesOpenWorld w self.old →
            MatchesOpenWorld (after_step w S.Seal result) self.new }
        ensures store { self.new.flusher.store ≡ self.old.flusher.store }
    {
        self.tell_batches();
        match self.sequencer.seal() {
            Seal::Sealed => {
                self.tell_batches();
                StepEvent::Sealed
            }
            Seal::NothingToSeal => StepEvent::Skipped,
            Seal::NoRoom => StepEvent::Skipped,
        }
    }

    /// The next sealed batch is fetched.
    pub fn fetch(&mut self) -> StepEvent
        ensures answer { (w : World) → MatchesOpenWorld w self.old → Answers w S.Fetch result }
        ensures fits { (w : World) → MatchesOpenWorld w self.old →
            MatchesOpenWorld (after_step w S.Fetch result) self.new }
        ensures honest { StaysHonest self.old self.new }
        ensures store { LeavesDevice self.old self.new }
        // The commit of a batch ends after at most `most_more` calls that return More.
        ensures paces { (w : World) (more : ℕ) → MatchesOpenWorld w self.old →
            EndsAfter more w self.old → StepsInPace w S.Fetch result more self.new }
    {
        self.tell_batches();
        if !self.flusher.waits() {
            return StepEvent::Skipped;
        }
        match self.flusher.fetch() {
            Fetch::Got => {
                // for the proof: how many calls are left of the store's work, by the contract of `images`
                self.flusher.keeper().images();
                StepEvent::Fetched
            }
            Fetch::Empty => StepEvent::Skipped,
            Fetch::Held => StepEvent::Skipped,
        }
    }

    /// The one device call that is next.
    pub fn call(&mut self) -> Advance
        ensures answer { (w : World) → MatchesOpenWorld w self.old → Answers w S.Call (event_of_call result) }
        ensures fits { (w : World) → MatchesOpenWorld w self.old →
            CallFits w (event_of_call result) self.new }
        ensures honest { StaysHonest self.old self.new }
        ensures moves { K.Device.honest (disk_of self.old) → (w : World) →
            MatchesOpenWorld w self.old → (refused : ℕ) →
            Moves K.recovers K.spent w S.Call (event_of_call result) (sight_in refused self.old)
            (sight_in refused self.new) }
        // If the held batch is taken, or work is under way, only the device fails.
        ensures sure { result ≡ Advance.Failed → CallsSurely self.old → (w : World) →
            MatchesOpenWorld w self.old → DeviceFailed self.old self.new }
        // It fails only if the device failed in it, or if a checkpoint was due in the last epoch.
        ensures late { result ≡ Advance.Failed → ¬ (K.exhausted self.new.flusher.store) →
            (w : World) → MatchesOpenWorld w self.old → DeviceFailed self.old self.new }
        ensures count { K.Device.failures (disk_of self.old) ≤
            K.Device.failures (disk_of self.new) }
        // A batch is committed in a bounded number of calls.
        ensures ends { (m : ℕ) → result ≡ Advance.More →
            0 < length (to_commit self.old.flusher.held) → CommitsIn (m + 1) self.old →
            CommitsIn m self.new }
        ensures paces { (w : World) (more : ℕ) → MatchesOpenWorld w self.old →
            EndsAfter more w self.old →
            StepsInPace w S.Call (event_of_call result) more self.new }
    {
        self.tell_batches();
        self.flusher.keeper().images();
        match self.flusher.advance() {
            Advance::More => Advance::More,
            Advance::Committed => Advance::Committed,
            Advance::Failed => Advance::Failed,
            Advance::Nothing => Advance::Nothing,
        }
    }

    /// The committed batch is shown.
    pub fn publish(&mut self) -> StepEvent
        ensures answer { (w : World) → MatchesOpenWorld w self.old → Answers w S.Publish result }
        ensures fits { (w : World) → MatchesOpenWorld w self.old →
            MatchesOpenWorld (after_step w S.Publish result) self.new }
        ensures store { self.new.flusher.store ≡ self.old.flusher.store }
    {
        self.tell_batches();
        match self.flusher.publish(&(), &()) {
            Publishes::Published => StepEvent::Published,
            Publishes::OutOfMemory => StepEvent::Skipped,
            Publishes::NotYet => StepEvent::Skipped,
        }
    }

    /// The next verdict is released to its slot.
    pub fn release(&mut self) -> StepEvent
        ensures answer { (w : World) → MatchesOpenWorld w self.old → Answers w S.Release result }
        ensures fits { (w : World) → MatchesOpenWorld w self.old →
            MatchesOpenWorld (after_step w S.Release result) self.new }
        ensures store { self.new.flusher.store ≡ self.old.flusher.store }
    {
        let Some(entry) = self.flusher.next() else {
            return StepEvent::Skipped;
        };
        self.tell_all(entry.slot);
        match self.flusher.release() {
            Release::Released(slot) => StepEvent::Released(slot),
            Release::Full(_) => StepEvent::Skipped,
            Release::Nothing => StepEvent::Skipped,
        }
    }

    /// The batch is returned after its verdicts are released.
    pub fn give_back(&mut self) -> StepEvent
        ensures answer { (w : World) → MatchesOpenWorld w self.old → Answers w S.GiveBack result }
        ensures fits { (w : World) → MatchesOpenWorld w self.old →
            MatchesOpenWorld (after_step w S.GiveBack result) self.new }
        ensures store { self.new.flusher.store ≡ self.old.flusher.store }
    {
        self.tell_batches();
        if self.flusher.give_back() {
            StepEvent::GaveBack
        } else {
            StepEvent::Skipped
        }
    }

    /// A slot receives its next receipt.
    pub fn receive(&mut self, slot: Slot) -> StepEvent
        ensures answer { (w : World) → MatchesOpenWorld w self.old → Answers w (S.Receive slot) result }
        ensures fits { (w : World) → MatchesOpenWorld w self.old →
            MatchesOpenWorld (after_step w (S.Receive slot) result) self.new }
        ensures store { self.new.flusher.store ≡ self.old.flusher.store }
    {
        self.tell_all(slot);
        let place = slot.number() as usize;
        if !self.consoles[place].waits() {
            return StepEvent::Skipped;
        }
        let console = &mut self.consoles[place];
        match console.receive() {
            Some(receipt) => {
                let Receipt {
                    slot: _,
                    serial,
                    verdict,
                    number,
                    told: _,
                } = receipt;
                StepEvent::Received(serial, verdict, number)
            }
            None => StepEvent::Skipped,
        }
    }

    /// Asks the published plant, for any slot. A look at an existing list is skipped only if a growth of the answer's list was
    /// refused, which the answer counts.
    pub fn look(&self, query: Query, answer: &mut Answer) -> StepEvent
        ensures answer { (w : World) (slot : ℕ) → MatchesOpenWorld w self.now →
            Answers w (S.Look slot query) result }
        ensures fits { (w : World) (slot : ℕ) → MatchesOpenWorld w self.now →
            MatchesOpenWorld (after_step w (S.Look slot query) result) self.now }
        ensures moves { (w : World) (slot : ℕ) → MatchesOpenWorld w self.now →
            Moves K.recovers K.spent w (S.Look slot query) result
            (sight_in answer.old.refused self.now) (sight_in answer.new.refused self.now) }
    {
        let mut look = self.flusher.board().looker(Seen::new());
        match look.look(query, answer) {
            Ok(count) => StepEvent::Looked(count),
            Err(_) => StepEvent::Skipped,
        }
    }

    /// One of the steps that leave the device alone.
    pub fn go(&mut self, step: &Step, answer: &mut Answer) -> StepEvent
        requires { IsInner step.now }
        ensures answer { (w : World) → MatchesOpenWorld w self.old → Answers w step.now result }
        ensures fits { (w : World) → MatchesOpenWorld w self.old →
            MatchesOpenWorld (after_step w step.now result) self.new }
        ensures honest { StaysHonest self.old self.new }
        ensures moves { (w : World) → MatchesOpenWorld w self.old →
            Moves K.recovers K.spent w step.now result (sight_in answer.old.refused self.old)
            (sight_in answer.new.refused self.new) }
        ensures paces { (w : World) (more : ℕ) → MatchesOpenWorld w self.old →
            EndsAfter more w self.old → StepsInPace w step.now result more self.new }
    {
        match step {
            Step::Send(slot, action) => self.send(*slot, *action),
            Step::Take(slot) => self.take(*slot),
            Step::Seal => self.seal(),
            Step::Fetch => self.fetch(),
            Step::Publish => self.publish(),
            Step::Release => self.release(),
            Step::GiveBack => self.give_back(),
            Step::Receive(slot) => self.receive(*slot),
            Step::Look(_, query) => self.look(*query, answer),
            Step::Call => unreachable!(),
            Step::Crash(_) => unreachable!(),
            Step::Reopen => unreachable!(),
        }
    }

    /// The count of what is stored.
    pub fn count(&self) -> u64
        ensures { result ≡ (K.state self.now.flusher.store).stored.panel.count }
    {
        self.flusher.keeper().count()
    }

    /// Does nothing: it says what a crash leaves.
    pub fn images(&self)
        ensures headline { K.Device.honest (K.disk self.now.flusher.store) → (w : World) →
            MatchesWorld w self.now →
            Headline K.recovers K.spent w (K.Device.state (K.disk self.now.flusher.store)) }
    {
        self.flusher.keeper().images();
    }

    /// The device alone.
    pub fn into_device(self) -> K::Device
        ensures honest { K.Device.honest (K.disk self.flusher.store) ↔ K.Device.honest result }
        ensures device { K.Device.state result ≡ K.Device.state (K.disk self.flusher.store) }
        ensures failures { K.Device.failures result ≡
            K.Device.failures (K.disk self.flusher.store) }
        ensures headline { K.Device.honest (K.disk self.flusher.store) → (w : World) → MatchesWorld w self →
            Headline K.recovers K.spent w (K.Device.state result) }
    {
        // for the proof: what a crash leaves
        self.images();
        let Pipeline {
            consoles: _,
            sequencer: _,
            flusher,
        } = self;
        flusher.into_keeper().into_device()
    }
}
