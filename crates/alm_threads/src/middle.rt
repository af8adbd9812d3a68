//! What is between the consoles and the device.
ghost use Rattle.std.specs.Prelude.{◌≡◌, ◌↔◌, ℕ, List, ◌<◌, ◌≤◌, [], length};
ghost use Rattle.alm_model.specs.Plant.{Condensed};
ghost use Rattle.alm_store.specs.declared.phase.Phase.TheVariants.{Idle};
ghost use Rattle.alm_rings.specs.Batches.{AreBatchEnds, sealed_of, fetched_of, empties_in};
ghost use Rattle.alm_rings.specs.Placed.{AreApart, taken_by, released_by};
ghost use Rattle.alm_types.specs.Sizes.{most_actions};

use crate::flusher_parts::FlusherParts;
use crate::rings::Rings;
use alm_moments::{Recorder, RunId};
use alm_plant::Plant;
use alm_rings::Told;
use alm_store::Store;

/// What is between the consoles and the device, before the first item went through it.
#[derive(Drop)]
pub struct Middle<K: Store, T: Told + Drop, J: RunId> {
    /// The plant that the sequencer judges on.
    pub plant: Plant,
    pub rings: Rings,
    pub flusher: FlusherParts<K, T>,
    /// The history of moments: none so far.
    pub recorder: Recorder<J>,
    /// The run is named after the store.
    pub ghost base: { J.base ≡ (K.state flusher.store).stored },
    pub ghost device: { J.first ≡ K.Device.state (K.disk flusher.store) },
    pub ghost honest: { ∥ (J.honest ↔ K.Device.honest (K.disk flusher.store)) ∥₁ },
    pub ghost recovers: { ∥ ((b : List ℕ) (p : Condensed) → (J.recovers b p ↔ K.recovers b p)) ∥₁ },
    pub ghost none: { recorder ≡ [] },
    pub ghost idle: { (K.state flusher.store).phase ≡ Idle },
    pub ghost limit: { plant.panel.count ≤ most_actions },
    pub ghost live: { plant ≡ (K.state flusher.store).stored },
    pub ghost inboxes: { AreApart (λ i. i.slot) rings.inboxes.items },
    pub ghost outboxes: { AreApart (λ o. o.slot) flusher.outboxes.items },
    pub ghost taken: { (s : ℕ) → taken_by s rings.inboxes.items ≡ [] },
    pub ghost released: { (s : ℕ) → released_by s flusher.outboxes.items ≡ [] },
    pub ghost sealed: { sealed_of rings.ends ≡ [] },
    pub ghost fetched: { fetched_of flusher.fetch ≡ [] },
    pub ghost empties: { 0 < length (empties_in rings.ends) },
    pub ghost batches: { AreBatchEnds rings.ends flusher.fetch },
}
