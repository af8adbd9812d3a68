//! One step of the commit of a batch, or of a checkpoint.

ghost use Rattle.std.specs.Prelude.{◌≡◌, ◌≢◌, ℕ, ◌⊎◌, ◌↔◌, ◌+◌, ◌*◌, ◌<◌, ◌≤◌, [], length, IsTrue, false};
ghost use Rattle.alm_disk.specs.Failures.{HasFailed};
ghost use Rattle.alm_model.specs.Judging.{accepted_of};
ghost use Rattle.alm_store.specs.Pace.{most};
ghost use Rattle.alm_types.specs.Sizes.{most_entries};
ghost use Rattle.alm_store.specs.Advancing.{IsCheckpointing};
ghost use Rattle.alm_store.specs.Pacing.{KeepsPace, SamePace};
ghost use Rattle.alm_flush.specs.Advances.{Behind, GoesOn, IsNextOne, IsSure};
ghost use Rattle.alm_flush.specs.Pacing.{NearPace};
ghost use Rattle.alm_flush.specs.Steps.{BeginsInOrder, BeginsInPace, BeginsWork, CallsDevice, CommitsOnly, CountsPieces, EndsWithin, HasFewCalls, IsEither, IsUntouched, KeepsPhase, NearsPace, OpensBehind, OpensBetween, StartsInPace, StaysInPace, StepsCommit, StoresBatch};

use crate::advance::Advance;
use alm_store::{Phase, Progress, Store};
use alm_types::{Batch, Verdict};

// A batch has at most 256 accepted actions.
pub fn few(batch: &Batch)
    ensures { length (accepted_of batch.now.entries) ≤ most_entries }
{
    // for the proof: the contract of `entries` says that there are at most 256
    let _entries = batch.entries();
}

// Begins what comes first for this batch if no work is under way: its commit, or a checkpoint if the batch isn't taken. Whether
// that was begun.
fn start<K: Store>(store: &mut K, batch: &Batch) -> bool
    requires idle { (K.state store.old).phase ≡ Phase.Idle }
    requires some { 0 < length (accepted_of batch.now.entries) }
    ensures work { BeginsWork K.Store result (accepted_of batch.now.entries)
        (IsNextOne batch.now (K.state store.old)) store.old store.new }
    ensures begun { IsTrue result →
        ((K.state store.new).phase ≡ Phase.Committing) ⊎ IsCheckpointing (K.state store.new).phase }
    ensures taken { IsTrue result → K.takes store.old (accepted_of batch.now.entries) →
        (K.state store.new).phase ≡ Phase.Committing }
    ensures few { IsTrue result →
        HasFewCalls K.Store (accepted_of batch.now.entries) store.new }
    ensures sure { K.takes store.old (accepted_of batch.now.entries) →
        IsNextOne batch.now (K.state store.old) → IsTrue result }
    ensures pace { IsTrue result →
        StartsInPace (K.takes store.old (accepted_of batch.now.entries)) (K.state store.old)
        (K.state store.new) }
{
    if store.takes(batch) {
        store.begin(batch).is_ok()
    } else {
        store.begin_checkpoint().is_ok()
    }
}

// Begins the commit of this batch between two pieces of a checkpoint, if it is taken and a piece went out since the last one.
// Whether it wasn't refused.
fn interrupt<K: Store>(store: &mut K, batch: &Batch) -> bool
    requires paused { (K.state store.old).phase ≡ Phase.Paused }
    requires some { 0 < length (accepted_of batch.now.entries) }
    ensures work { BeginsWork K.Store result (accepted_of batch.now.entries)
        (IsNextOne batch.now (K.state store.old)) store.old store.new }
    ensures begun { IsTrue result →
        ((K.state store.new).phase ≡ Phase.Committing) ⊎ (store.new ≡ store.old) }
    ensures order { IsTrue result →
        BeginsInOrder K.Store (accepted_of batch.now.entries) store.old store.new }
    ensures calls { IsTrue result → (K.state store.new).phase ≡ Phase.Committing →
        (K.state store.new).left ≤ 4 }
    ensures sure { IsNextOne batch.now (K.state store.old) → IsTrue result }
    ensures pace { SamePace (K.state store.old) (K.state store.new) }
{
    if store.written_since() > 0 && store.takes(batch) {
        return store.begin(batch).is_ok();
    }
    true
}

// What is begun for this batch before the next device call. Whether nothing was refused.
fn prepare<K: Store>(store: &mut K, batch: &Batch) -> bool
    requires going { (K.state store.old).phase ≢ Phase.Stopped }
    requires some { 0 < length (accepted_of batch.now.entries) }
    requires commit { CommitsOnly (accepted_of batch.now.entries) (K.state store.old) }
    ensures work { BeginsWork K.Store result (accepted_of batch.now.entries)
        (IsNextOne batch.now (K.state store.old)) store.old store.new }
    ensures begun { IsTrue result →
        ((K.state store.new).phase ≡ Phase.Committing) ⊎ IsCheckpointing (K.state store.new).phase }
    ensures order { IsTrue result →
        BeginsInOrder K.Store (accepted_of batch.now.entries) store.old store.new ×
        BeginsInPace K.Store store.old store.new }
    ensures ends { (m : ℕ) → IsTrue result →
        EndsWithin K.Store (m + 1) (accepted_of batch.now.entries) store.old →
        Behind m (K.state store.new).phase (K.state store.new).left
        (K.will_take store.new (accepted_of batch.now.entries))
        (length (accepted_of batch.now.entries)) }
    ensures sure { IsSure (K.state store.old).phase
        (K.takes store.old (accepted_of batch.now.entries)) →
        IsNextOne batch.now (K.state store.old) → IsTrue result }
{
    few(batch);
    match store.phase() {
        Phase::Idle => start(store, batch),
        Phase::Paused => interrupt(store, batch),
        Phase::Committing | Phase::Copying | Phase::Stopped => true,
    }
}

// One device call of what was begun for a batch.
fn call<K: Store>(store: &mut K, batch: &Batch) -> Advance
    requires working { ((K.state store.old).phase ≡ Phase.Committing) ⊎
        IsCheckpointing (K.state store.old).phase }
    requires some { 0 < length (accepted_of batch.now.entries) }
    requires commit { CommitsOnly (accepted_of batch.now.entries) (K.state store.old) }
    ensures device { CallsDevice K.Store K.Device.Disk result (accepted_of batch.now.entries)
        store.old store.new }
    ensures stores { StoresBatch result (accepted_of batch.now.entries) (K.state store.old)
        (K.state store.new) }
    ensures commit { CommitsOnly (accepted_of batch.now.entries) (K.state store.new) }
    ensures phase { KeepsPhase result (K.state store.old) (K.state store.new) }
    ensures takes { IsCheckpointing (K.state store.old).phase → result ≢ Advance.Failed →
        K.takes store.old (accepted_of batch.now.entries) →
        K.takes store.new (accepted_of batch.now.entries) }
    ensures written { CountsPieces result (K.state store.old) (K.state store.new) }
    ensures ends { (m : ℕ) → result ≡ Advance.More →
        Behind m (K.state store.old).phase (K.state store.old).left
        (K.will_take store.old (accepted_of batch.now.entries))
        (length (accepted_of batch.now.entries)) →
        EndsWithin K.Store m (accepted_of batch.now.entries) store.new }
    ensures cause { result ≡ Advance.Failed →
        HasFailed (K.Device.failures (K.disk store.old)) (K.Device.failures (K.disk store.new)) }
    ensures pace { NearsPace K.Store result store.old store.new }
{
    let phase = store.phase();
    match store.advance() {
        Progress::More => Advance::More,
        Progress::Failed => Advance::Failed,
        Progress::Done => match phase {
            Phase::Committing => Advance::Committed,
            _ => Advance::More,
        },
    }
}

// Opens a checkpoint if none is open and more than half of the segment is used; not in the last epoch.
fn open_checkpoint<K: Store>(store: &mut K)
    requires other { ((K.state store.old).phase ≢ Phase.Committing) ×
        ((K.state store.old).phase ≢ Phase.Stopped) }
    ensures kept { IsUntouched K.Store store.old store.new }
    ensures phase { ((K.state store.new).phase ≢ Phase.Committing) ×
        ((K.state store.new).phase ≢ Phase.Stopped) }
    ensures opens { ¬ (K.exhausted store.old) →
        (K.state store.new).segment < 2 * (K.state store.new).used →
        IsCheckpointing (K.state store.new).phase }
    ensures pace { ¬ (K.exhausted store.new) → NearPace (K.state store.old) →
        KeepsPace (K.state store.new) }
    ensures only { 2 * (K.state store.new).used ≤ (K.state store.new).segment →
        (K.state store.new).going ≡ (K.state store.old).going }
{
    if store.phase() == Phase::Idle && store.is_half_used() {
        match store.begin_checkpoint() {
            Ok(()) => {}
            Err(_) => {}
        }
    }
}

/// Opens a checkpoint if the store has no work under way; not in the last epoch. Whether it did: no device call.
pub fn open_between<K: Store>(store: &mut K) -> bool
    ensures opens { OpensBetween K.Store result store.old store.new }
    ensures sure { (K.state store.old).phase ≡ Phase.Idle → ¬ (K.exhausted store.old) →
        IsTrue result }
{
    if store.phase() != Phase::Idle {
        return false;
    }
    store.mark();
    store.begin_checkpoint().is_ok()
}

// At most one device call for a batch with actions.
fn commit<K: Store>(store: &mut K, batch: &Batch) -> Advance
    requires going { (K.state store.old).phase ≢ Phase.Stopped }
    requires some { 0 < length (accepted_of batch.now.entries) }
    requires commit { CommitsOnly (accepted_of batch.now.entries) (K.state store.old) }
    requires either { IsEither (accepted_of batch.now.entries) (K.state store.old) }
    ensures step { StepsCommit K.Store K.Device.Disk result (accepted_of batch.now.entries)
        (IsNextOne batch.now (K.state store.old)) store.old store.new }
    ensures pace { NearsPace K.Store result store.old store.new }
{
    if !prepare(store, batch) {
        return Advance::Failed;
    }
    call(store, batch)
}

// Whether one of a batch's requests is accepted, up to the first that is.
fn has_accepted(batch: &Batch) -> bool
    ensures { IsTrue result ↔ (0 < length (accepted_of batch.now.entries)) }
{
    for entry in batch.entries() {
        match &entry.verdict {
            Verdict::Accepted(_) => return true,
            Verdict::Refused(_, _) => {}
        }
    }
    false
}

// Whether a batch has actions. During its commit this isn't checked again.
fn has_actions<K: Store>(store: &K, batch: &Batch) -> bool
    requires idle { accepted_of batch.now.entries ≡ [] →
        (K.state store.now).phase ≢ Phase.Committing }
    ensures { IsTrue result ↔ (0 < length (accepted_of batch.now.entries)) }
{
    store.phase() == Phase::Committing || has_accepted(batch)
}

/// At most one device call. A batch without actions needs none; one that isn't taken needs a checkpoint first. After a batch is
/// committed a checkpoint is opened if more than half of the segment is used.
pub fn advance_by<K: Store>(store: &mut K, batch: &Batch) -> Advance
    requires idle { accepted_of batch.now.entries ≡ [] →
        (K.state store.old).phase ≢ Phase.Committing }
    requires commit { CommitsOnly (accepted_of batch.now.entries) (K.state store.old) }
    requires either { IsEither (accepted_of batch.now.entries) (K.state store.old) }
    ensures step { StepsCommit K.Store K.Device.Disk result (accepted_of batch.now.entries)
        (IsNextOne batch.now (K.state store.old)) store.old store.new }
    ensures behind { OpensBehind K.Store result store.old store.new }
    ensures pace { StaysInPace K.Store result store.old store.new }
    ensures idle { (accepted_of batch.now.entries ≡ [] →
        (K.state store.new).phase ≢ Phase.Committing) ×
        (result ≡ Advance.Committed → ∥ (K.state store.new).next ≡ (K.state store.new).stored ∥₁) }
{
    if store.phase() == Phase::Stopped {
        return Advance::Failed;
    }
    let advanced = if has_actions(store, batch) {
        commit(store, batch)
    } else {
        Advance::Committed
    };
    if advanced == Advance::Committed {
        open_checkpoint(store);
    }
    advanced
}

/// Without a batch to commit an open checkpoint continues by one device call.
pub fn go_on<K: Store>(store: &mut K) -> Advance
    requires other { (K.state store.old).phase ≢ Phase.Committing }
    ensures device { CallsDevice K.Store K.Device.Disk result [] store.old store.new }
    ensures answer { GoesOn result (K.state store.old).phase (K.state store.new).phase }
    ensures stored { ((K.state store.new).stored ≡ (K.state store.old).stored) ×
        ((K.state store.old).phase ≢ Phase.Stopped →
        (K.state store.new).next ≡ (K.state store.new).stored) }
    ensures other { (K.state store.new).phase ≢ Phase.Committing }
    ensures same { ((K.state store.old).phase ≡ Phase.Stopped → store.new ≡ store.old) ×
        (result ≡ Advance.Nothing → store.new ≡ store.old) }
    ensures cause { result ≡ Advance.Failed → (K.state store.old).phase ≢ Phase.Stopped →
        HasFailed (K.Device.failures (K.disk store.old)) (K.Device.failures (K.disk store.new)) }
    ensures pace { StaysInPace K.Store result store.old store.new }
{
    match store.phase() {
        Phase::Copying | Phase::Paused => match store.advance() {
            Progress::More | Progress::Done => Advance::More,
            Progress::Failed => Advance::Failed,
        },
        Phase::Stopped => Advance::Failed,
        Phase::Idle | Phase::Committing => Advance::Nothing,
    }
}
