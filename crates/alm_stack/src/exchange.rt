//! One request through a pipeline: a run of the world's steps.

ghost use Rattle.std.specs.Prelude.{◌≡◌, ◌<◌, ◌≤◌, ◌+◌, ◌^◌, ◌∷◌, [], List};
ghost use Rattle.std.specs.Prelude.{false, length, IsTrue, IfSome, IsNone, IfOk, IfErr};
ghost use Rattle.alm_types.specs.declared.entry.Entry.{Entry};
ghost use Rattle.alm_types.specs.declared.verdict.Verdict.{Verdict};
ghost use Rattle.alm_model.specs.Accept.{accept};
ghost use Rattle.alm_model.specs.Judging.{accepted_of, verdict_of};
ghost use Rattle.alm_desk.specs.Answers.{request};
ghost use Rattle.alm_desk.specs.Backends.{judged_on, if_accepted};
ghost use Rattle.alm_types.specs.Sizes.{most_entries};
ghost use Rattle.alm_pipeline.specs.declared.step.Step.TheVariants as S;
ghost use Rattle.alm_pipeline.specs.declared.step_event.StepEvent.TheVariants as E;
ghost use Rattle.alm_pipeline.specs.World.{World, Held, after_step, live, closed_world};
ghost use Rattle.alm_pipeline.specs.Matches.{MatchesWorld, MatchesOpenWorld, DeviceFailed, StaysHonest, disk_of};
ghost use Rattle.alm_stack.specs.Exchanges.{IsCommitWay, IsExchange, IsHandedIn, IsHandedOut, IsIdle, IsWay, Rests, MayWait};
ghost use Rattle.alm_stack.specs.Exchanges.{calls, stored_world};

use alm_desk::{JudgedRequest, Stopped};
use alm_flush::Advance;
use alm_pipeline::{Pipeline, StepEvent};
use alm_store::Store;
use alm_types::{Slot, Want};

/// A commit is done in at most this number of calls: if a checkpoint is open, and another one has to make the room.
const MOST_CALLS: u32 = 647;

/// Sends a request, and has it judged, sealed and fetched: whether it was sent. It is not if the slot's serials are used up.
///
/// Its clauses also say what a crash leaves before each step.
fn hand_in<K: Store>(pipeline: &mut Pipeline<K>, slot: Slot, want: Want) -> bool
    ensures honest { StaysHonest pipeline.old pipeline.new }
    ensures failures { K.Device.failures (disk_of pipeline.new) ≡
        K.Device.failures (disk_of pipeline.old) }
    ensures handed { IsTrue result → (w : World) → Rests w pipeline.old →
        IsHandedIn w slot want pipeline.old pipeline.new }
    ensures spent { result ≡ false → (w : World) → Rests w pipeline.old →
        (2 ^ 64 ≤ length (w.sent slot) + 1) × MatchesOpenWorld w pipeline.new ×
        IsWay w (S.Send slot want ∷ []) (E.Busy ∷ []) w pipeline.old pipeline.new }
{
    // for the proof: what a crash leaves, here and at each call of `images` below
    pipeline.images();
    let StepEvent::Sent(_) = pipeline.send(slot, want) else {
        return false;
    };
    pipeline.images();
    let StepEvent::Took(_) = pipeline.take(slot) else {
        return false;
    };
    pipeline.images();
    let StepEvent::Sealed = pipeline.seal() else {
        return false;
    };
    pipeline.images();
    let StepEvent::Fetched = pipeline.fetch() else {
        return false;
    };
    true
}

/// Makes device calls until the fetched batch is committed: whether that was done.
fn commit<K: Store>(pipeline: &mut Pipeline<K>) -> bool
    ensures honest { StaysHonest pipeline.old pipeline.new }
    ensures count { K.Device.failures (disk_of pipeline.old) ≤
        K.Device.failures (disk_of pipeline.new) }
    ensures done { IsTrue result → (w : World) (entries : List Entry) → MatchesOpenWorld w pipeline.old →
        w.stage ≡ Held entries → length (accepted_of entries) ≤ most_entries →
        MatchesOpenWorld (after_step w S.Call E.Committed) pipeline.new ×
        IsCommitWay w E.Committed (after_step w S.Call E.Committed) pipeline.old pipeline.new }
    ensures failed { result ≡ false → (w : World) (entries : List Entry) → MatchesOpenWorld w pipeline.old →
        w.stage ≡ Held entries → length (accepted_of entries) ≤ most_entries →
        MatchesWorld w pipeline.new ×
        IsCommitWay w E.Failed (closed_world w) pipeline.old pipeline.new }
    ensures cause { result ≡ false → (w : World) (entries : List Entry) → MatchesOpenWorld w pipeline.old →
        w.stage ≡ Held entries → length (accepted_of entries) ≤ most_entries →
        ¬ (K.exhausted pipeline.new.flusher.store) → DeviceFailed pipeline.old pipeline.new }
{
    // for the proof: how many calls are left, by the contract of `images`
    pipeline.flusher.keeper().images();
    for _step in 0..MOST_CALLS {
        // for the proof: what a crash leaves, here and at each call of `images` below
        pipeline.images();
        match pipeline.call() {
            Advance::More => {}
            Advance::Committed => return true,
            Advance::Failed => return false,
            Advance::Nothing => return false,
        }
    }
    false
}

/// Shows the batch that was committed, and releases the reply.
fn hand_out<K: Store>(pipeline: &mut Pipeline<K>, slot: Slot) -> Option<JudgedRequest>
    ensures store { pipeline.new.flusher.store ≡ pipeline.old.flusher.store }
    ensures answered { IfSome result
        (λ j. (w : World) (want : Want) (v : Verdict) → IsIdle w →
        MatchesOpenWorld (stored_world w slot want v) pipeline.old →
        IsHandedOut w slot want v j pipeline.old pipeline.new) }
    ensures sure { IsNone result → (w : World) (want : Want) (v : Verdict) → IsIdle w →
        MatchesOpenWorld (stored_world w slot want v) pipeline.old → ⊥ }
{
    // for the proof: what a crash leaves, here and at each call of `images` below
    pipeline.images();
    let StepEvent::Published = pipeline.publish() else {
        return None;
    };
    pipeline.images();
    let StepEvent::Released(_) = pipeline.release() else {
        return None;
    };
    pipeline.images();
    let StepEvent::GaveBack = pipeline.give_back() else {
        return None;
    };
    pipeline.images();
    let StepEvent::Received(_, verdict, number) = pipeline.receive(slot) else {
        return None;
    };
    Some(JudgedRequest { verdict, number })
}

/// Does what a slot asks: what became of it, after that is stored and published.
///
/// It stops only if the device failed, if the last epoch is used up, or if the slot's serials are.
pub fn exchange<K: Store>(
    pipeline: &mut Pipeline<K>,
    slot: Slot,
    want: Want,
) -> Result<JudgedRequest, Stopped>
    ensures honest { StaysHonest pipeline.old pipeline.new }
    ensures count { K.Device.failures (disk_of pipeline.old) ≤
        K.Device.failures (disk_of pipeline.new) }
    ensures judged { IfOk result (λ j. (w : World) → Rests w pipeline.old →
        (j ≡ judged_on (live w) (request slot want)) × (w' : World) × Rests w' pipeline.new ×
        (live w' ≡ if_accepted (live w) (accept (live w).panel (request slot want)))) }
    ensures left { IfErr result (λ _. (w : World) → Rests w pipeline.old →
        ((K.state pipeline.new.flusher.store).stored ≡ live w) ×
        MayWait pipeline.new.flusher.held (verdict_of (live w) (request slot want))) }
    ensures cause { IfErr result
        (λ _. (w : World) → Rests w pipeline.old → ¬ (K.exhausted pipeline.new.flusher.store) →
        length (w.sent slot) + 1 < 2 ^ 64 → DeviceFailed pipeline.old pipeline.new) }
    // A run of the world's steps, of which the answer is the reply.
    ensures run { (w : World) → Rests w pipeline.old →
        IsExchange w slot want pipeline.old pipeline.new result }
{
    if !hand_in(pipeline, slot, want) {
        // for the proof: what a crash leaves, here and at each call of `images` below
        pipeline.images();
        return Err(Stopped);
    }
    if !commit(pipeline) {
        pipeline.images();
        return Err(Stopped);
    }
    match hand_out(pipeline, slot) {
        Some(judged) => {
            pipeline.images();
            Ok(judged)
        }
        None => Err(Stopped),
    }
}
