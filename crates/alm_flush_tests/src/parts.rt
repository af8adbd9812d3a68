//! The parts between the threads, in one thread.

ghost use Rattle.std.specs.Prelude.{◌≡◌, ◌<◌, ℕ, IsSome};
ghost use Rattle.alm_rings.specs.Placed.{inbox_at};
ghost use Rattle.alm_types.specs.Sizes.{most_actions};

use alm_board::{PlainBoard, PlainTold};
use alm_flush::{Advance, Fetch, Flusher, Publishes, Release};
use alm_keeper::Phase;
use alm_model::Alarms;
use alm_plant::Plant;
use alm_rings::{Console, Receipt, SlotEnds, batches_beside, open_batches};
use alm_seq::{Seal, Sequencer, Take};
use alm_store::Store;
use alm_types::{Action, Slot, Want};
use std::alloc::{AllocError, Global};

/// The consoles, the sequencer and the flusher of all slots, over a store.
#[derive(Drop)]
pub struct Parts<K: Store> {
    pub consoles: Vec<Console<PlainTold>>,
    sequencer: Sequencer<Plant>,
    pub flusher: Flusher<K, PlainTold, PlainBoard<Plant>>,
    ghost all: { (s : ℕ) → s < 18 → IsSome (inbox_at s sequencer.inboxes.items) },
}

impl<K: Store> Parts<K> {
    ghost use Rattle.std.specs.Prelude.{◌≡◌, ◌<◌, ◌≤◌, ℕ, [], IsSome};
    ghost use Rattle.alm_rings.specs.Placed.{AreApart, inbox_at, taken_by, released_by};

    /// The parts of these new ends over a store at rest.
    pub fn new(alloc: Global, ends: SlotEnds<PlainTold>, store: K) -> Result<Self, AllocError>
        requires apart { AreApart (λ i. i.slot) ends.inboxes.items ×
            AreApart (λ o. o.slot) ends.outboxes.items }
        requires all { (s : ℕ) → s < 18 → IsSome (inbox_at s ends.inboxes.items) }
        requires taken { (s : ℕ) → taken_by s ends.inboxes.items ≡ [] }
        requires released { (s : ℕ) → released_by s ends.outboxes.items ≡ [] }
        requires idle { (K.state store).phase ≡ Phase.Idle }
        requires limit { (K.state store).stored.panel.count ≤ most_actions }
    {
        let live = store.stored().copy(alloc)?;
        let shown = store.stored().copy(alloc)?;
        let (mut seal, mut fetch) = open_batches(alloc)?;
        batches_beside(&mut seal, &mut fetch);
        let SlotEnds {
            consoles,
            inboxes,
            outboxes,
        } = ends;
        Ok(Parts {
            consoles,
            sequencer: Sequencer::new(live, inboxes, seal),
            flusher: Flusher::new(store, PlainBoard::new(shown), outboxes, fetch),
        })
    }

    /// Sends an action, and returns its serial; `None` if it is busy.
    pub fn send(&mut self, slot: Slot, action: Action) -> Option<u64> {
        let console = self.consoles.get_mut(slot.number() as usize)?;
        console.send(Want::Do(action)).ok()
    }

    /// The next receipt of a slot.
    pub fn receive(&mut self, slot: Slot) -> Option<Receipt<PlainTold>> {
        let console = self.consoles.get_mut(slot.number() as usize)?;
        console.receive()
    }

    /// Takes the next request of a slot.
    pub fn take(&mut self, slot: Slot) -> Take {
        self.sequencer.take(slot)
    }

    /// Seals the open batch.
    pub fn seal(&mut self) -> Seal {
        self.sequencer.seal()
    }

    /// Fetches a batch, commits it and publishes it: how many steps the commit took, or `None` if one of these failed.
    pub fn store(&mut self, most: u64) -> Option<u64> {
        match self.flusher.fetch() {
            Fetch::Got => {}
            _ => return None,
        }
        for step in 1..=most {
            match self.flusher.advance() {
                Advance::More => {}
                Advance::Committed => {
                    return match self.flusher.publish(&(), &()) {
                        Publishes::Published => Some(step),
                        _ => None,
                    };
                }
                _ => return None,
            }
        }
        None
    }

    /// Releases a verdict to each of these slots: whether all were released so.
    pub fn release(&mut self, slots: &[Slot]) -> bool {
        for slot in slots {
            match self.flusher.release() {
                Release::Released(to) => {
                    if to != *slot {
                        return false;
                    }
                }
                _ => return false,
            }
        }
        true
    }
}
