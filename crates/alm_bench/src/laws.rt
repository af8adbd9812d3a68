//! Laws of the runs of a bench: each function does nothing, and its contract is the law.

ghost use Rattle.std.specs.Prelude.{◌≡◌, ◌≤◌, ℕ, List, ◌∷◌, ◌++◌, length};
ghost use Rattle.alm_types.specs.declared.action.Action.{Action};
ghost use Rattle.alm_types.specs.declared.query.Query.{Query};
ghost use Rattle.alm_disk.specs.Device.{IsImage};
ghost use Rattle.alm_model.specs.Plant.{Condensed};
ghost use Rattle.alm_model.specs.Step.{run};
ghost use Rattle.alm_board.specs.PrefixesOf.{IsPrefixOf};
ghost use Rattle.alm_keeper.specs.AsStore.{StandsFor, IsLastEpoch};
ghost use Rattle.alm_pipeline.specs.World.{first, closed_world};
ghost use Rattle.alm_pipeline.specs.Headline.{Sight, IsRun, after_steps};
ghost use Rattle.alm_pipeline.specs.Pace.{PacesAll, most_more};
ghost use Rattle.alm_progress.specs.Progress.{AreReceived, AreRounds, NoneFails, left_to_do, steps_of};
ghost use Rattle.alm_bench.specs.Told.{Tells};
ghost use Rattle.alm_bench.specs.Traced.{KeepsTold, told_in};
ghost use Rattle.alm_pipeline.specs.declared.step.Step.{Step};
ghost use Rattle.alm_pipeline.specs.declared.step.Step.TheVariants.{Look, Release};
ghost use Rattle.alm_pipeline.specs.declared.step_event.StepEvent.{StepEvent};
ghost use Rattle.alm_pipeline.specs.declared.step_event.StepEvent.TheVariants.{Looked, Released};

/// The headline by a run's trace alone: whatever a crash leaves at its end encodes the plant of a prefix of the actions that the
/// trace accepted. The prefix reaches each number of a receipt and each count of a look in it.
pub fn the_trace_tells_enough()
    ensures { (plant : Condensed) (d last : Sight) (steps : List Step) (trace : List StepEvent) →
        IsRun StandsFor IsLastEpoch (closed_world (first plant)) d steps trace last →
        (image : List ℕ) → IsImage last.state image → KeepsTold plant trace image }
{}

/// In any run, what a step reported of the accepted actions is recovered ever after. Whatever a crash leaves at the end of the
/// run, it encodes the plant of a list of actions that begins with those. A reply that is released reports the actions up to its
/// own, a look those that it shows.
pub fn what_was_told_is_recovered()
    ensures { (plant : Condensed) (d last : Sight) (steps behind : List Step)
        (trace rest : List StepEvent) (step : Step) (event : StepEvent) (told : List Action) →
        length steps ≡ length trace →
        IsRun StandsFor IsLastEpoch (closed_world (first plant)) d (steps ++ step ∷ behind)
        (trace ++ event ∷ rest) last →
        Tells (after_steps (closed_world (first plant)) steps trace) step event told →
        (image : List ℕ) (recovered : Condensed) → IsImage last.state image →
        StandsFor image recovered →
        (actions : List Action) × (recovered ≡ run plant actions) × IsPrefixOf told actions }
{}

/// Each reply that is released in a run reports such a list: as many actions as its number says beyond the first plant's. If its
/// action was accepted, that action is the last of them.
pub fn each_reply_tells_its_action()
    ensures { (plant : Condensed) (d last : Sight) (steps behind : List Step)
        (trace rest : List StepEvent) (slot : ℕ) → length steps ≡ length trace →
        IsRun StandsFor IsLastEpoch (closed_world (first plant)) d (steps ++ Release ∷ behind)
        (trace ++ Released slot ∷ rest) last →
        (told : List Action) ×
        Tells (after_steps (closed_world (first plant)) steps trace) Release (Released slot) told }
{}

/// A look shows all that was reported before it. Its count reaches each number of a receipt that was received and each count of a
/// look, over all slots and reopenings.
pub fn looks_never_go_back()
    ensures { (plant : Condensed) (d last : Sight) (steps behind : List Step)
        (trace rest : List StepEvent) (slot : ℕ) (query : Query) (count : ℕ) →
        length steps ≡ length trace →
        IsRun StandsFor IsLastEpoch (closed_world (first plant)) d
        (steps ++ Look slot query ∷ behind) (trace ++ Looked count ∷ rest) last →
        told_in trace ≤ count }
{}

/// The parts answer all. After any steps, crashes and reopenings let rounds follow, as many as steps are left, in which no call
/// fails. In a round each step of sequencer, flusher and receivers comes at least once, in any order. Then each request that was
/// sent before them is received.
pub fn fair_rounds_answer_all()
    ensures { (slots pace : ℕ) (plant : Condensed) (d last : Sight) (steps : List Step)
        (rounds : List (List Step)) (trace rest : List StepEvent) → length steps ≡ length trace →
        IsRun StandsFor IsLastEpoch (closed_world (first plant)) d (steps ++ steps_of rounds)
        (trace ++ rest) last →
        PacesAll most_more (closed_world (first plant)) 0 (steps ++ steps_of rounds)
        (trace ++ rest) pace → AreRounds slots most_more rounds → NoneFails rest →
        left_to_do slots most_more (after_steps (closed_world (first plant)) steps trace)
        most_more ≤ length rounds →
        AreReceived slots most_more (after_steps (closed_world (first plant)) steps trace)
        (after_steps (closed_world (first plant)) (steps ++ steps_of rounds) (trace ++ rest)) }
{}
