//! The flusher's ends of the batch rings.

ghost use Rattle.std.specs.Prelude.{◌≡◌};
ghost use Rattle.rtrb.specs.Ring.{producer_capacity};

use crate::emptied::Emptied;
use alm_types::Batch;
use rtrb::{Consumer, Producer};
use std::alloc::Global;

/// The flusher's ends of the batch rings: it fetches batches, and returns them empty.
#[derive(Drop)]
pub struct FetchEnds {
    pub(crate) full: Consumer<Batch>,
    pub(crate) empty: Producer<Batch, Global, Emptied>,
    ghost room: { producer_capacity empty ≡ 8 },
}

impl FetchEnds {
    ghost use Rattle.std.specs.Prelude.{◌≡◌, ◌+◌, ◌<◌, ◌≤◌, ◌++◌, [], ◌∷◌, OnOk, IfErr, IfSome, IfNone, IsOk, IsSome, IsTrue, ◌↔◌, length};
    ghost use mathlib.Core.List.{IsPrefix};
    ghost use Rattle.alm_rings.specs.Batches.{SameFetchEnds, fetched_of, given_of, coming_in, places_in, without_entries};

    /// Whether a sealed batch is known to wait.
    pub fn waits(&self) -> bool
        ensures { IsTrue result ↔ (0 < length (coming_in self.now)) }
    {
        self.full.cached_slots() > 0
    }

    /// The next sealed batch. `None` if none is known to wait.
    pub fn fetch(&mut self) -> Option<Batch>
        ensures ends { SameFetchEnds self.old self.new }
        ensures given { (given_of self.new ≡ given_of self.old) ×
            (places_in self.new ≡ places_in self.old) }
        ensures some { IfSome result
            (λ batch. fetched_of self.new ≡ fetched_of self.old ++ batch ∷ []) }
        ensures known { IfSome result
            (λ batch. IsPrefix (coming_in self.old) (batch ∷ coming_in self.new)) }
        ensures none { IfNone result
            ((fetched_of self.new ≡ fetched_of self.old) ×
            (coming_in self.new ≡ coming_in self.old)) }
        ensures cause { 0 < length (coming_in self.old) → IsSome result }
    {
        self.full.pop().ok()
    }

    /// Returns a batch, without its entries, to the sequencer. If no place of the ring is known to be free, the batch
    /// comes back as the error and nothing changes.
    pub fn give_back(&mut self, batch: Batch) -> Result<(), Batch>
        ensures ends { SameFetchEnds self.old self.new }
        ensures fetched { (fetched_of self.new ≡ fetched_of self.old) ×
            (coming_in self.new ≡ coming_in self.old) }
        ensures ok { OnOk result
            ((given_of self.new ≡ given_of self.old ++ without_entries batch ∷ []) ×
            (places_in self.old ≤ places_in self.new + 1)) }
        ensures full { IfErr result
            (λ back. (back ≡ batch) × (given_of self.new ≡ given_of self.old) ×
            (places_in self.new ≡ places_in self.old)) }
        ensures cause { 0 < places_in self.old → IsOk result }
    {
        if self.empty.is_full() {
            return Err(batch);
        }
        let mut batch = batch;
        batch.restart(batch.first());
        self.empty.push_reserved(batch);
        Ok(())
    }
}
