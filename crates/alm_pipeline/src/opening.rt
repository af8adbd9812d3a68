//! The one maker of a pipeline.

ghost use Rattle.alm_types.specs.Sizes.{most_actions};

use crate::pipeline::Pipeline;
use alm_board::PlainBoard;
use alm_flush::Flusher;
use alm_model::Alarms;
use alm_rings::{SlotEnds, batches_beside, open_batches, open_slots};
use alm_seq::Sequencer;
use alm_store::{OpenFault, Phase, Store};
use std::alloc::Global;

impl<K: Store> Pipeline<K> {
    ghost use Rattle.std.specs.Prelude.{◌≡◌, ◌≤◌, ◌+◌, ℕ, List, length, IfOk, IfErr};
    ghost use Rattle.alm_store.specs.Opening.{IsGivenBack, IsOpenedAs};
    ghost use Rattle.alm_types.specs.declared.action.Action.{Action};
    ghost use Rattle.alm_model.specs.Plant.{Condensed};
    ghost use Rattle.alm_model.specs.Step.{run};
    ghost use Rattle.alm_pipeline.specs.World.{new_world};
    ghost use Rattle.alm_pipeline.specs.Matches.{MatchesOpenWorld};

    /// Rings, consoles, board, sequencer and flusher over an idle store; the store is returned if out of memory.
    pub fn new(alloc: Global, store: K) -> Result<Pipeline<K>, K>
        requires idle { (K.state store).phase ≡ Phase.Idle }
        requires limit { (K.state store).stored.panel.count ≤ most_actions }
        ensures open { IfOk result
            (λ pipeline. (base : Condensed) (kept : List Action) (floor : ℕ) →
            (K.state store).stored ≡ run base kept → floor ≤ base.panel.count + length kept →
            MatchesOpenWorld (new_world base kept floor) pipeline) }
        ensures store { IfOk result (λ pipeline. pipeline.flusher.store ≡ store) }
        ensures refused { IfErr result (λ back. back ≡ store) }
    {
        let Ok(
            SlotEnds {
                consoles,
                inboxes,
                outboxes,
            },
        ) = open_slots(alloc)
        else {
            return Err(store);
        };
        let Ok((ends, fetch)) = open_batches(alloc) else {
            return Err(store);
        };
        let Ok(live) = store.stored().copy(alloc) else {
            return Err(store);
        };
        let Ok(shown) = store.stored().copy(alloc) else {
            return Err(store);
        };
        let (mut ends, mut fetch) = (ends, fetch);
        batches_beside(&mut ends, &mut fetch);
        let sequencer = Sequencer::new(live, inboxes, ends);
        let flusher = Flusher::new(store, PlainBoard::new(shown), outboxes, fetch);
        Ok(Pipeline {
            consoles,
            sequencer,
            flusher,
        })
    }

    /// Opens the plant that a device encodes, and puts all parts over it.
    ///
    /// The device is returned if it encodes no plant, if it failed, or if out of memory.
    pub fn open(alloc: Global, disk: K::Device) -> Result<Pipeline<K>, (OpenFault, K::Device)>
        ensures open { IfOk result
            (λ pipeline. (base : Condensed) (kept : List Action) (floor : ℕ) →
            (K.state pipeline.flusher.store).stored ≡ run base kept →
            floor ≤ base.panel.count + length kept → MatchesOpenWorld (new_world base kept floor) pipeline) }
        ensures opened { IfOk result
            (λ pipeline. IsOpenedAs K.Device.Disk K.recovers
            (K.state pipeline.flusher.store).stored disk (K.disk pipeline.flusher.store)) }
        ensures refused { IfErr result
            (λ e. IsGivenBack K.Device.Disk K.recovers e.0 disk e.1) }
        ensures idle { IfOk result
            (λ pipeline. (K.state pipeline.flusher.store).phase ≡ Phase.Idle) }
    {
        match K::open(alloc, disk) {
            Ok(store) => match Pipeline::new(alloc, store) {
                Ok(pipeline) => Ok(pipeline),
                Err(store) => Err((OpenFault::OutOfMemory, store.into_device())),
            },
            Err(refused) => Err(refused),
        }
    }
}
