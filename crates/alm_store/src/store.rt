//! A store of actions over a device, one device call at a time.

ghost use Rattle.alm_types.specs.Sizes.{most_actions};

use crate::open_fault::OpenFault;
use crate::phase::Phase;
use crate::progress::Progress;
use crate::refused::Refused;
use alm_disk::Disk;
use alm_plant::Plant;
use alm_types::Batch;
use std::alloc::Global;

/// A store of actions over a device.
pub trait Store: Drop {
    ghost use Rattle.std.specs.Prelude.{◌≡◌, ◌≢◌, ◌⊎◌, ◌↔◌, ◌<◌, ◌≤◌, ◌+◌, ◌*◌, ℕ, List, length, None, IsSome, IsOk, IfOk, IfErr, OnOk, OnErr, IsTrue};
    ghost use Rattle.alm_types.specs.declared.action.Action.{Action};
    ghost use Rattle.alm_disk.specs.Device.{DeviceState, AreBytes, IsImage};
    ghost use Rattle.alm_model.specs.Plant.{Condensed};
    ghost use Rattle.alm_model.specs.Judging.{accepted_of};
    ghost use Rattle.alm_model.specs.Rules.{AllAdmitted, KeepsRules};
    ghost use Rattle.alm_store.specs.declared.phase.Phase.TheVariants.{Idle, Committing, Stopped};
    ghost use Rattle.alm_store.specs.Advancing.{Advanced, CommitIsBegun, KeepsStored, CommitIsNotBegun, CheckpointIsNotOpened, IsCheckpointing, IsResting, CheckpointIsOpened, TakesOn};
    ghost use Rattle.alm_store.specs.Calls.{CountsFailures, IsCall, MakesOne};
    ghost use Rattle.alm_store.specs.Opening.{IsGivenBack, IsOpenedAs};
    ghost use Rattle.alm_store.specs.Pace.{most_calls};
    ghost use Rattle.alm_types.specs.Sizes.{most_entries};
    ghost use Rattle.alm_store.specs.Pacing.{Goes, KeepsPace, SamePace, TakesAny};
    ghost use Rattle.alm_store.specs.State.{StoreState};

    type Device: Disk + Drop;

    /// The device that it stores on.
    ghost disk: { Self → Self.Device };

    /// What it does, what it stores, and how much of its segment is used.
    ghost state: { Self → StoreState };

    /// These bytes of a device encode this plant.
    ghost recovers: { List ℕ → Condensed → Type 0 };

    /// The next frame takes these actions.
    ghost takes: { Self → List Action → Type 0 };

    /// It does when the work that is under way is done.
    ghost will_take: { Self → List Action → Type 0 };

    /// The half that stands is of a version that has every action.
    ghost newest: { Self → Type 0 };

    /// A device is at the last epoch.
    ghost spent: { DeviceState → Type 0 };

    /// No checkpoint can begin any more: the half that stands is of the last epoch.
    ghost exhausted: { Self → Type 0 };

    /// Opens the plant that the device encodes: a sync comes first, and no byte is written.
    fn open(alloc: Global, from: Self::Device) -> Result<Self, (OpenFault, Self::Device)>
        ensures opened { IfOk result
            (λ store. IsOpenedAs Self.Device.Disk recovers (state store).stored from (disk store)) }
        ensures refused { IfErr result (λ e. IsGivenBack Self.Device.Disk recovers e.0 from e.1) }
        ensures idle { IfOk result (λ store. (state store).phase ≡ Idle) }
        ensures limit { IfOk result (λ store. (state store).stored.panel.count ≤ most_actions) }
        /// If at most half of the segment is used the store keeps its pace.
        ensures pace { IfOk result
            (λ store. 2 * (state store).used ≤ (state store).segment → KeepsPace (state store)) };

    /// The device alone.
    fn into_device(self) -> Self::Device
        ensures { result ≡ disk self };

    /// Does nothing: it says what a crash leaves. In every phase each image encodes the stored plant or the next one. And a work
    /// that is under way ends in 320 device calls.
    fn images(&self)
        ensures few { (state self.now).left ≤ most_calls }
        ensures stands { Self.Device.honest (disk self.now) → (b : List ℕ) →
            IsImage (Self.Device.state (disk self.now)) b →
            ∥ recovers b (state self.now).stored ⊎ recovers b (state self.now).next ∥₁ }
        ensures exhausted { Self.Device.honest (disk self.now) → exhausted self.now →
            spent (Self.Device.state (disk self.now)) };

    fn phase(&self) -> Phase
        ensures { result ≡ (state self.now).phase };

    /// How many actions are stored.
    fn count(&self) -> u64
        ensures { result ≡ (state self.now).stored.panel.count };

    /// The stored plant.
    fn stored(&self) -> &Plant
        ensures { result.now ≡ (state self.now).stored };

    /// Whether the next frame takes the accepted actions of a batch.
    fn takes(&self, batch: &Batch) -> bool
        ensures { IsTrue result ↔ takes self.now (accepted_of batch.now.entries) };

    /// Whether more than half of the segment is used.
    fn is_half_used(&self) -> bool
        ensures { IsTrue result ↔ ((state self.now).segment < 2 * (state self.now).used) };

    fn written_since(&self) -> u64
        ensures { result ≡ (state self.now).written };

    /// Counts the bytes of a checkpoint from here on.
    fn mark(&mut self)
        ensures disk { disk self.new ≡ disk self.old }
        ensures state { state self.new ≡ record (state self.old) { written = 0 } }
        ensures exhausted { exhausted self.old ↔ exhausted self.new }
        ensures newest { newest self.old → newest self.new }
        ensures takes { (actions : List Action) →
            (takes self.old actions ↔ takes self.new actions) ×
            (will_take self.old actions ↔ will_take self.new actions) };

    /// Begins the commit of a batch that has actions, and is taken: no device call.
    fn begin(&mut self, batch: &Batch) -> Result<(), Refused>
        requires some { 0 < length (accepted_of batch.now.entries) }
        requires takes { takes self.old (accepted_of batch.now.entries) }
        ensures kept { (disk self.new ≡ disk self.old) ×
            KeepsStored (state self.old) (state self.new) }
        ensures standing { (exhausted self.old ↔ exhausted self.new) ×
            (newest self.old → newest self.new) }
        ensures refused { IsResting (state self.old).phase →
            OnErr result (CommitIsNotBegun (state self.old) (state self.new)) }
        ensures begun { OnOk result
            (CommitIsBegun (accepted_of batch.now.entries) (state self.old) (state self.new)) }
        ensures pace { IsResting (state self.old).phase →
            SamePace (state self.old) (state self.new) }
        /// An idle or paused store begins a batch that is the next one and admitted.
        ensures cause { IsResting (state self.old).phase →
            batch.now.first ≡ (state self.old).stored.panel.count + 1 →
            AllAdmitted (state self.old).stored (accepted_of batch.now.entries) → IsOk result };

    /// Begins a checkpoint: no device call.
    fn begin_checkpoint(&mut self) -> Result<(), Refused>
        ensures kept { (disk self.new ≡ disk self.old) ×
            KeepsStored (state self.old) (state self.new) }
        ensures standing { (exhausted self.old ↔ exhausted self.new) ×
            (newest self.old → newest self.new) }
        ensures takes { (actions : List Action) → takes self.old actions → takes self.new actions }
        ensures half { ((state self.new).used ≡ (state self.old).used) ×
            ((state self.new).segment ≡ (state self.old).segment) }
        ensures refused { OnErr result (CheckpointIsNotOpened (state self.old) (state self.new)) }
        ensures begun { OnOk result (CheckpointIsOpened (state self.old) (state self.new)) }
        /// A checkpoint makes room for a whole batch.
        ensures room { OnOk result
            ((actions : List Action) → length actions ≤ most_entries → will_take self.new actions) }
        ensures cause { (state self.old).phase ≡ Idle → ¬ (exhausted self.old) → IsOk result };

    /// One device call of the work that was begun.
    fn advance(&mut self) -> Progress
        requires { ((state self.old).phase ≡ Committing) ⊎ IsCheckpointing (state self.old).phase }
        /// One write or sync was made on this device, whatever it does, and it failed if the result says so.
        ensures one { MakesOne Self.Device.serves result (disk self.old) (disk self.new) }
        ensures counts { CountsFailures result (Self.Device.failures (disk self.old))
            (Self.Device.failures (disk self.new)) }
        ensures honest { Self.Device.honest (disk self.old) ↔ Self.Device.honest (disk self.new) }
        ensures call { Self.Device.honest (disk self.old) →
            IsCall (Self.Device.state (disk self.old)) (Self.Device.state (disk self.new)) }
        ensures standing { (exhausted self.old → exhausted self.new) ×
            (newest self.old → newest self.new) }
        ensures advanced { Advanced result (state self.old) (state self.new) }
        /// A commit adds one frame, and restarts the count; a piece goes out; and a checkpoint that is done leaves the frames in
        /// it.
        ensures pace { Goes result (state self.old) (state self.new) }
        /// What will be taken is taken after a checkpoint is done, and until then will be;
        ensures will_take { result ≢ Progress.Failed → (actions : List Action) →
            will_take self.old actions → TakesOn result (state self.old).phase
            (will_take self.new actions) (takes self.new actions) }
        /// and within a checkpoint what is taken stays taken.
        ensures takes { IsCheckpointing (state self.old).phase → result ≢ Progress.Failed →
            (actions : List Action) → takes self.old actions → takes self.new actions };

    /// If no commit is under way the next plant is the stored one.
    ghost idle: { (store : Self) → (state store).phase ≢ Committing →
        (state store).phase ≢ Stopped → (state store).next ≡ (state store).stored };

    /// No checkpoint is open while no work is under way, and one is open in its phases.
    ghost alone: { (store : Self) → (state store).phase ≡ Idle → (state store).going ≡ None };

    ghost opened: { (store : Self) → IsCheckpointing (state store).phase → IsSome (state store).going };

    /// If there is room for the longest frame any batch is taken by a half of a version that has every action.
    ghost fits: { (store : Self) (actions : List Action) → newest store →
        length actions ≤ most_entries → TakesAny (state store) → takes store actions };

    /// No bytes encode two plants.
    ghost one: { (b : List ℕ) (p q : Condensed) → recovers b p → recovers b q → p ≡ q };

    /// What bytes encode keeps the rules of every plant.
    ghost rules: { (b : List ℕ) (p : Condensed) → AreBytes b → recovers b p → KeepsRules p };
}
