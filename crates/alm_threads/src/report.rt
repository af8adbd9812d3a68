//! What a run leaves.
ghost use Rattle.std.specs.Prelude.{◌≡◌, ◌≢◌, ◌≤◌, ℕ, IsSome, None, Some};
ghost use Rattle.alm_store.specs.declared.phase.Phase.TheVariants.{Stopped};
ghost use Rattle.alm_threads.specs.declared.stop_cause.StopCause.TheVariants as stop_cause;
ghost use Rattle.alm_threads.specs.declared.storage.Storage.TheVariants as variant;
ghost use Rattle.alm_threads.specs.Answered.{AllAnswered};
ghost use Rattle.alm_threads.specs.Causes.{most_refusals};

use crate::stop_cause::StopCause;
use crate::storage::Storage;
use alm_moments::{Moments, RunId};
use alm_rings::{Console, SlotReport, Told};
use alm_store::Store;
use std::snapshot::Snapshot;

/// What a run leaves. Its storage is whole exactly if the store has not stopped, and all that was sent was taken and answered.
#[derive(Drop)]
pub struct RunReport<K: Store, T: Told + Drop, J: RunId> {
    /// The flusher's store.
    pub keeper: K,
    pub storage: Storage,
    /// What went through each slot, in the order of the slots.
    pub slots: Vec<Option<SlotReport>>,
    /// The consoles of the slots as the run ended, for contracts alone: what each sent, and what it received.
    pub consoles: Snapshot<Vec<Console<T>>>,
    /// Why it isn't whole.
    pub cause: Option<StopCause>,
    /// The history of the run's moments, up to its end. What a receipt or a look of the run carries is a prefix of it, or it of that.
    pub moments: Moments<J>,
    pub ghost goes_on: { storage ≡ variant.Whole → (K.state keeper).phase ≢ Stopped },
    pub ghost answered: { storage ≡ variant.Whole → ∥ AllAnswered slots.items ∥₁ },
    pub ghost whole: { (K.state keeper).phase ≢ Stopped → AllAnswered slots.items →
        storage ≡ variant.Whole },
    pub ghost caused: { storage ≡ variant.Stopped → IsSome cause },
    pub ghost refused: { (n : ℕ) → cause ≡ Some (stop_cause.Publishing n) → most_refusals ≤ n },
    pub ghost uncaused: { storage ≡ variant.Whole → cause ≡ None },
    pub ghost stopped: { (K.state keeper).phase ≡ Stopped → cause ≡ Some stop_cause.Store },
}
