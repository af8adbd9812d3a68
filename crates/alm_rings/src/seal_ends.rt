//! The sequencer's ends of the batch rings.

ghost use Rattle.std.specs.Prelude.{◌≡◌};
ghost use Rattle.rtrb.specs.Ring.{producer_capacity};

use crate::emptied::Emptied;
use alm_types::Batch;
use rtrb::{Consumer, Producer, PushError};
use std::alloc::Global;

/// The sequencer's ends of the batch rings: it seals batches, and gets them back empty.
#[derive(Drop)]
pub struct SealEnds {
    pub(crate) full: Producer<Batch>,
    pub(crate) empty: Consumer<Batch, Global, Emptied>,
    ghost room: { producer_capacity full ≡ 8 },
}

impl SealEnds {
    ghost use Rattle.std.specs.Prelude.{◌≡◌, ◌+◌, ◌<◌, ◌≤◌, ◌++◌, [], ◌∷◌, OnOk, IfErr, IfSome, IfNone, IsOk, IsSome, length};
    ghost use mathlib.Core.List.{IsPrefix};
    ghost use Rattle.alm_rings.specs.Batches.{SameSealEnds, sealed_of, empties_in, emptied_of, places_of};

    /// Seals a batch: sends it to the flusher. If no place of the ring is known to be free, the batch is returned and
    /// nothing changes.
    pub fn seal(&mut self, batch: Batch) -> Result<(), Batch>
        ensures ends { SameSealEnds self.old self.new }
        ensures empties { (empties_in self.new ≡ empties_in self.old) ×
            (emptied_of self.new ≡ emptied_of self.old) }
        ensures ok { OnOk result
            ((sealed_of self.new ≡ sealed_of self.old ++ batch ∷ []) ×
            (places_of self.old ≤ places_of self.new + 1)) }
        ensures full { IfErr result
            (λ back. (back ≡ batch) × (sealed_of self.new ≡ sealed_of self.old) ×
            (places_of self.new ≡ places_of self.old)) }
        ensures cause { 0 < places_of self.old → IsOk result }
    {
        match self.full.push(batch) {
            Ok(()) => Ok(()),
            Err(PushError::Full(batch)) => Err(batch),
        }
    }

    /// The next empty batch. `None` if none is known to wait.
    pub fn empty(&mut self) -> Option<Batch>
        ensures ends { SameSealEnds self.old self.new }
        ensures sealed { (sealed_of self.new ≡ sealed_of self.old) ×
            (places_of self.new ≡ places_of self.old) }
        ensures some { IfSome result
            (λ batch. emptied_of self.new ≡ emptied_of self.old ++ batch ∷ []) }
        ensures no_entries { IfSome result (λ batch. batch.entries ≡ []) }
        ensures known { IfSome result
            (λ batch. IsPrefix (empties_in self.old) (batch ∷ empties_in self.new)) }
        ensures none { IfNone result
            ((emptied_of self.new ≡ emptied_of self.old) ×
            (empties_in self.new ≡ empties_in self.old)) }
        ensures cause { 0 < length (empties_in self.old) → IsSome result }
    {
        self.empty.pop().ok()
    }
}
