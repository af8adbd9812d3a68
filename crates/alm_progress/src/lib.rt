//! Progress: no request in the server's design is stuck, lost or starved. These are laws of the world of plain lists that the
//! headline is about (alm_pipeline, specs/World.antt), in which sequencer, flusher and receivers step in any order. Each function
//! does nothing, and its contract is the law: so there is no wrong body of one.
//!
//! | law | says |
//! |---|---|
//! | [`nothing_is_stuck`] | while a request isn't received, some step of sequencer, flusher or a receiver is possible |
//! | [`each_step_leaves_less`] | each such step leaves less to do; a request adds `calls + 8`, a look 0 |
//! | [`nothing_gets_lost`] | what was taken is released or under way, in each world of a run, crashes included |
//! | [`all_is_answered_in_time`], [`a_way_leads_to_the_end`] | such steps alone lead to a world in which every request is received, and there are such steps |
//! | [`every_fair_schedule_answers_all`] | rounds in any order, each step once or more in a round, receive all |
//! | [`every_fair_run_answers_all`] | so of a run with its answers, if its commits end |
//! | [`rounds_in_order_answer_all`] | from a settled world rounds in the threads' order receive a share of each slot: five for 18 slots with 64 each |
//!
//! One premise is added, `Paces` (alm_pipeline, specs/Pace.antt): the steps of a held batch's commit return More a bounded number
//! of times. The runs of a bench meet it with 646 (`paces` of `IsWorldStep` and `IsWorldRun`), and so does a request to a stack
//! (`paced` in the clause `run` of `submit`).
//!
//! Not covered: that a thread runs, since a part that is never driven does nothing; and requests that never stop coming. Then a
//! slot can be starved by others if the order of steps is free, and the threads' shares are what prevents it. Five rounds hold
//! only from a settled world: after seven sealed batches a request is received in the eighth.
//!
//! Proved:
//! - laws of that world: nothing is stuck or lost while its parts step and no call fails. A bench and a stack meet their
//!   premise, `Paces` (by `nothing_is_stuck`, `nothing_gets_lost`, `all_is_answered_in_time`)
#![tactic(auto)]

ghost use Rattle.std.specs.Prelude.{◌≡◌, ◌<◌, ◌≤◌, ◌+◌, ◌*◌, ◌⊎◌, ◌++◌, ℕ, List, length};
ghost use Rattle.alm_types.specs.declared.action.Action.{Action};
ghost use Rattle.alm_types.specs.declared.want.Want.{Want};
ghost use Rattle.alm_types.specs.declared.query.Query.{Query};
ghost use Rattle.alm_model.specs.Plant.{Condensed};
ghost use Rattle.alm_pipeline.specs.declared.step.Step.{Step};
ghost use Rattle.alm_pipeline.specs.declared.step.Step.TheVariants.{Send, Look};
ghost use Rattle.alm_pipeline.specs.declared.step_event.StepEvent.{StepEvent};
ghost use Rattle.alm_pipeline.specs.declared.step_event.StepEvent.TheVariants.{Sent};
ghost use Rattle.alm_pipeline.specs.World.{World, Answers, Possible, after_step, closed_world, first, new_world};
ghost use Rattle.alm_pipeline.specs.Headline.{after_steps};
ghost use Rattle.alm_pipeline.specs.Pace.{Paces, PacesAll};
ghost use Rattle.alm_types.specs.Sizes.{most_entries};
ghost use Rattle.alm_progress.specs.Schedule.{HasNothingUnderWay, DrivesInOrder};
ghost use Rattle.alm_progress.specs.Progress.{AllServe, AnswersAll, AreRounds, Drives, LosesNothing, NoneFails, Serves, StepsPossibly, DrivesRounds, IsAtRest, AreReceived, left_to_do, steps_of};

/// Each step of sequencer, flusher or a receiver that is possible leaves less to do, whatever it is answered.
pub fn each_step_leaves_less()
    ensures { (slots calls more more_then : ℕ) (w : World) (step : Step) (event : StepEvent) →
        Serves slots calls step → Possible w step → Answers w step event →
        Paces calls w step event more more_then →
        left_to_do slots calls (after_step w step event) more_then <
        left_to_do slots calls w more }
{}

/// A request that is sent adds its own steps: eight, and the calls of its commit that return More.
pub fn a_request_adds_its_own()
    ensures { (slots calls more slot serial : ℕ) (w : World) (want : Want) → slot < slots →
        w.taken slot ≤ length (w.sent slot) →
        left_to_do slots calls (after_step w (Send slot want) (Sent serial)) more ≡
        left_to_do slots calls w more + (calls + 8) }
{}

/// A look doesn't change it.
pub fn a_look_adds_nothing()
    ensures { (slots calls more slot : ℕ) (w : World) (query : Query) (event : StepEvent) →
        left_to_do slots calls (after_step w (Look slot query) event) more ≡
        left_to_do slots calls w more }
{}

/// No request gets lost: not at first, by no step, and so in no world that a run reaches, crashes and reopenings
/// included.
pub fn nothing_gets_lost()
    ensures fresh { (plant : Condensed) (kept : List Action) (least : ℕ) →
        LosesNothing (new_world plant kept least) }
    ensures step { (w : World) (step : Step) (event : StepEvent) → Answers w step event →
        LosesNothing w → LosesNothing (after_step w step event) }
    ensures runs { (plant : Condensed) (steps : List Step) (trace : List StepEvent) →
        AnswersAll (closed_world (first plant)) steps trace →
        LosesNothing (after_steps (closed_world (first plant)) steps trace) }
{}

/// The design is never stuck: if a request isn't received, a step of sequencer, flusher or receiver is possible.
pub fn nothing_is_stuck()
    ensures { (slots calls slot : ℕ) (w : World) → LosesNothing w → slot < slots →
        w.received slot < length (w.sent slot) →
        (step : Step) × Serves slots calls step × Possible w step }
{}

/// So all that was sent is answered in time. Consider such steps from some moment on, each a possible one, with no failure, crash
/// or new request. Each step then counts towards what was left to do. If none is possible any more, or as many were made as were
/// left, each request is received.
pub fn all_is_answered_in_time()
    ensures { (slots calls more last : ℕ) (w : World) (steps : List Step) (trace : List StepEvent) →
        LosesNothing w → StepsPossibly slots calls w more steps trace last →
        (length steps + left_to_do slots calls (after_steps w steps trace) last ≤
        left_to_do slots calls w more) ×
        (IsAtRest slots calls (after_steps w steps trace) ⊎
        (left_to_do slots calls w more ≤ length steps) →
        AreReceived slots calls w (after_steps w steps trace)) }
{}

/// These runs exist. From each world such steps lead to one in which each request is received. Any steps of theirs can be driven,
/// one that isn't possible being skipped.
pub fn a_way_leads_to_the_end()
    ensures driven { (slots calls more : ℕ) (w : World) (steps : List Step) →
        AllServe slots calls steps →
        (trace : List StepEvent) × (end : World) × (last : ℕ) ×
        Drives slots calls w more steps trace end last }
    ensures way { (slots calls more : ℕ) (w : World) → LosesNothing w →
        (steps : List Step) × (trace : List StepEvent) × (last : ℕ) ×
        StepsPossibly slots calls w more steps trace last ×
        AreReceived slots calls w (after_steps w steps trace) }
{}

/// The order doesn't matter. In a round each step of sequencer, flusher and receivers is driven at least once, in any order, and
/// may be skipped. After as many rounds as steps were left, each request that was sent before them is received, if no call fails.
pub fn every_fair_schedule_answers_all()
    ensures { (slots calls more last : ℕ) (w end : World) (rounds : List (List Step)) →
        LosesNothing w → left_to_do slots calls w more ≤ length rounds →
        DrivesRounds slots calls w more rounds end last → AreReceived slots calls w end }
{}

/// So of a run with its answers, as a bench has it. If its steps are theirs, no call fails and its commits end, it is driven. If
/// they are as many rounds as steps were left, each request that was sent before them is received. This holds from any world that
/// lost nothing, and so after any steps of a life.
pub fn every_fair_run_answers_all()
    ensures driven { (slots calls more last : ℕ) (w : World) (steps : List Step) (trace : List StepEvent) →
        AllServe slots calls steps → AnswersAll w steps trace → NoneFails trace →
        PacesAll calls w more steps trace last →
        Drives slots calls w more steps trace (after_steps w steps trace) last }
    ensures rounds { (slots calls more last : ℕ) (w : World) (rounds : List (List Step))
        (trace : List StepEvent) → LosesNothing w → AreRounds slots calls rounds →
        left_to_do slots calls w more ≤ length rounds → AnswersAll w (steps_of rounds) trace →
        NoneFails trace → PacesAll calls w more (steps_of rounds) trace last →
        AreReceived slots calls w (after_steps w (steps_of rounds) trace) }
    ensures lives { (slots calls last : ℕ) (plant : Condensed) (steps : List Step)
        (rounds : List (List Step)) (trace rest : List StepEvent) → length steps ≡ length trace →
        AnswersAll (closed_world (first plant)) (steps ++ steps_of rounds) (trace ++ rest) →
        PacesAll calls (closed_world (first plant)) 0 (steps ++ steps_of rounds) (trace ++ rest)
        last → AreRounds slots calls rounds → NoneFails rest →
        left_to_do slots calls (after_steps (closed_world (first plant)) steps trace) calls ≤
        length rounds →
        AreReceived slots calls (after_steps (closed_world (first plant)) steps trace)
        (after_steps (closed_world (first plant)) (steps ++ steps_of rounds) (trace ++ rest)) }
{}

/// The bound in rounds. In the threads' order a round takes a share of each slot, brings the batch all the way and lets each slot
/// receive its share. From a moment at which no work is under way `rounds` rounds answer each slot's requests. For that these are
/// at most `rounds` shares, and the shares of all slots fit a batch: of 18 slots with 64 requests each, five rounds with shares
/// of 14.
pub fn rounds_in_order_answer_all()
    ensures { (slots calls share rounds more last : ℕ) (w end : World) →
        slots * share ≤ most_entries → LosesNothing w → HasNothingUnderWay slots w →
        ((slot : ℕ) → slot < slots →
        length (w.sent slot) ≤ w.taken slot + share * rounds) →
        DrivesInOrder slots calls share w more rounds end last → AreReceived slots calls w end }
{}
