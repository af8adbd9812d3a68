//! Laws: each function does nothing, and its contract is the law.

ghost use Rattle.std.specs.Prelude.{◌≡◌, ◌≤◌, ◌+◌, ◌++◌, ℕ, List, false, Result, Ok};
ghost use Rattle.alm_disk.specs.Device.{DeviceState};
ghost use Rattle.alm_disk.specs.declared.disk_fault.DiskFault.{DiskFault};
ghost use Rattle.alm_types.specs.Batches.{Judged};
ghost use Rattle.alm_model.specs.Plant.{Condensed};
ghost use Rattle.alm_model.specs.Rules.{AllAdmitted, AreAdmitted};
ghost use Rattle.alm_model.specs.Judging.{accepted_of};
ghost use Rattle.alm_keeper.specs.Keeper.{begin_answer};
ghost use Rattle.alm_store.specs.Pace.{least_segment, Going, Paced, IsPieceAhead};
ghost use Rattle.alm_store.specs.Pacing.{KeepsPace, TakesAny};
ghost use Rattle.alm_store.specs.State.{StoreState};
ghost use Rattle.alm_keeper.specs.Phases.{UnderWay, KeptIn, MakesCall, WorkAdvances};
ghost use Rattle.alm_keeper.specs.Stand.{Account, TakesAsked, account_of, end_of_half};
ghost use Rattle.alm_keeper.specs.Trail.{Says, gated, with_body};
ghost use Rattle.alm_codec.specs.declared.asked.Asked.{Asked};
ghost use Rattle.alm_codec.specs.Frames.{IsFrame, asked_actions};
ghost use Rattle.alm_codec.specs.Versions.{is_open};
ghost use Rattle.alm_codec.specs.declared.version.Version.TheVariants.{V03};
ghost use Rattle.alm_store.specs.declared.phase.Phase.{Phase};
ghost use Rattle.alm_store.specs.Advancing.{IsResting};

/// A batch that is the next one and admitted is begun by a keeper that rests, also between the pieces of a checkpoint.
pub fn next_batch_is_begun()
    ensures { (phase : Phase) (plant : Condensed) (batch : Judged) → IsResting phase →
        batch.first ≡ plant.panel.count + 1 → AllAdmitted plant (accepted_of batch.entries) →
        begin_answer phase plant batch ≡ Ok tt }
{}

/// After the two writes of a commit a device says also the actions of its frame, each with who asked.
pub fn a_commit_says_who_asked()
    ensures { (bytes : List ℕ) (before asked : List Asked) (s : Says before bytes) →
        IsFrame s.cut.version s.cut.epoch (s.plant.panel.count + 1) asked →
        AreAdmitted s.plant (asked_actions asked) →
        TakesAsked (account_of s.cut s.plant) asked →
        Says (before ++ asked) (gated s 165 (with_body s asked)) }
{}

/// No reader can find that the last frame's gate reads closed by damage: such a device says what it said before the commit. In
/// version 03 it is the one that a loss of power leaves between the two writes.
pub fn a_closed_gate_is_not_found()
    ensures says { (bytes : List ℕ) (before asked : List Asked) (s : Says before bytes) →
        IsFrame s.cut.version s.cut.epoch (s.plant.panel.count + 1) asked →
        AreAdmitted s.plant (asked_actions asked) →
        TakesAsked (account_of s.cut s.plant) asked → (gate : ℕ) →
        is_open s.cut.version gate ≡ false →
        Says before (gated s gate (gated s 165 (with_body s asked))) }
    ensures same { (bytes : List ℕ) (before asked : List Asked) (s : Says before bytes) →
        IsFrame s.cut.version s.cut.epoch (s.plant.panel.count + 1) asked →
        AreAdmitted s.plant (asked_actions asked) →
        TakesAsked (account_of s.cut s.plant) asked → s.cut.version ≡ V03 →
        gated s 90 (gated s 165 (with_body s asked)) ≡ with_body s asked }
{}

/// A device says one list of actions with who asked.
pub fn one_list_of_who_asked()
    ensures { (bytes : List ℕ) (before after : List Asked) → Says before bytes →
        Says after bytes → before ≡ after }
{}

/// What each device call leaves at any moment of it, done or failed, and what is kept after it was done. It covers a commit, a
/// checkpoint in any pieces, and a commit between its pieces.
pub fn each_call_keeps_what_is_under_way()
    ensures { (work : UnderWay) (a : Account) (n : ℕ) (result : Result Unit DiskFault)
        (old new : DeviceState) → a.gate + 1 ≤ end_of_half a → KeptIn work a old →
        MakesCall work a n result old new → WorkAdvances work a n result old new }
{}

/// A store that keeps its pace takes any batch, if the segment has 452,651 bytes or more.
pub fn a_store_that_keeps_its_pace_takes_any_batch()
    ensures takes { (s : StoreState) → least_segment ≤ s.segment → KeepsPace s → TakesAny s }
    // At most 53 commits come into one checkpoint.
    ensures few { (segment : ℕ) (phase : Phase) (used written : ℕ) (g : Going)
        (p : Paced segment used (IsPieceAhead phase written) g) → p.commits ≤ 53 }
{}
