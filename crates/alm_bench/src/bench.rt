//! A bench: all parts over a device, driven step by step.

ghost use Rattle.std.specs.Prelude.{◌≡◌, ◌↔◌, ℕ, false, IfOk, IfErr, OnErr};
ghost use Rattle.alm_disk.specs.Device.{IsImage};
ghost use Rattle.alm_model.specs.Plant.{Condensed};
ghost use Rattle.alm_keeper.specs.AsStore.{StandsFor, IsLastEpoch};
ghost use Rattle.alm_store.specs.Opening.{IsGivenBack};
ghost use Rattle.alm_pipeline.specs.World.{World, Answers, after_step, first, closed_world};
ghost use Rattle.alm_pipeline.specs.declared.step.Step.{Step};
ghost use Rattle.alm_pipeline.specs.declared.step.Step.TheVariants as S;

use crate::named::crashed;
use crate::setup::Setup;
use alm_disk::Crashable;
use alm_flush::Advance;
use alm_keeper::{Keeper, OpenFault};
use alm_pipeline::{Pipeline, Step, StepEvent};
use alm_store::Store;
use alm_types::Answer;
use std::alloc::{AllocError, Global};
use std::mem::replace;

/// All parts over a device, in one thread; or the device alone, if it is closed.
#[derive(Drop)]
pub struct Bench<D: Crashable + Drop>
where
    Keeper<D>: Store,
{
    setup: Setup<D>,
    /// The answer that looks fill in. It counts the growths that were refused.
    answer: Answer,
}

impl<D: Crashable + Drop> Bench<D> {
    ghost use Rattle.alm_pipeline.specs.Matches.{IsInner};
    ghost use Rattle.alm_disk.specs.Failures.{HasFailed};
    ghost use Rattle.alm_bench.specs.Stands.{IsWorldRun, IsWorldStep, MatchesBench, bench_sight, HasDevice, IsHonest, IsPaced, StepsPaced, NextIsSure, IsOpenedFrom, IsReopened};
    ghost use Rattle.alm_pipeline.specs.Headline.{Headline, Moves, device_alone};
    ghost use Rattle.alm_bench.specs.StandOnly.{StandOnly};
    ghost use Rattle.alm_pipeline.specs.declared.step.Step.TheVariants as S;
    ghost use Rattle.alm_pipeline.specs.declared.step_event.StepEvent.TheVariants as E;

    /// A closed bench.
    pub fn closed(alloc: Global, disk: D) -> Bench<D>
        ensures stands { D.honest disk → (plant : Condensed) → StandOnly (D.state disk) plant →
            MatchesBench (closed_world (first plant)) result }
        ensures paced { (plant : Condensed) → IsPaced 0 (closed_world (first plant)) result }
        ensures device { bench_sight result ≡ device_alone (D.state disk) (D.failures disk) 0 }
        ensures honest { D.honest disk ↔ IsHonest result }
        ensures there { HasDevice result }
    {
        Bench {
            setup: Setup::Shut(disk),
            answer: Answer::new(alloc),
        }
    }

    /// Opens the plant that a device encodes: a sync comes first, and no byte is written.
    ///
    /// Refused, and the device is returned, if it encodes no plant, if it failed, or if out of memory.
    pub fn new(alloc: Global, disk: D) -> Result<Bench<D>, (OpenFault, D)>
        // By what it has given at the end: a reopening reads, and what it reads may show that the device doesn't keep to the model.
        ensures stands { (plant : Condensed) → StandOnly (D.state disk) plant →
            IfOk result (λ bench. IsHonest bench → MatchesBench (first plant) bench) }
        ensures paced { IfOk result (λ bench. (plant : Condensed) → IsPaced 0 (first plant) bench) }
        /// The calls made on this device are a sync and reads, and no others.
        ensures made { IfOk result (IsOpenedFrom disk) }
        /// It reads as one of the images before, and no place is pending.
        ensures device { D.honest disk →
            IfOk result
            (λ bench. IsImage (D.state disk) (bench_sight bench).state.bytes ×
            ((place : ℕ) → (bench_sight bench).state.pending place ≡ false)) }
        ensures there { IfOk result (λ bench. HasDevice bench) }
        ensures honest { IfOk result (λ bench. IsHonest bench → D.honest disk) }
        ensures refused { IfErr result (λ e. IsGivenBack D.Disk StandsFor e.0 disk e.1) }
    {
        match Pipeline::<Keeper<D>>::open(alloc, disk) {
            Ok(pipeline) => Ok(Bench {
                setup: Setup::Open(pipeline),
                answer: Answer::new(alloc),
            }),
            Err(refused) => Err(refused),
        }
    }

    /// The device alone.
    pub fn into_disk(self) -> D
        requires { HasDevice self }
        ensures honest { IsHonest self ↔ D.honest result }
        ensures state { D.state result ≡ (bench_sight self).state }
        ensures failures { D.failures result ≡ (bench_sight self).failures }
    {
        let Bench { setup, answer: _ } = self;
        match setup {
            Setup::Open(pipeline) => pipeline.into_device(),
            Setup::Shut(disk) => disk,
            Setup::Gone => unreachable!(),
        }
    }

    // Does nothing: it says what a crash leaves.
    fn images(&self)
        ensures headline { (w : World) → MatchesBench w self.now →
            Headline StandsFor IsLastEpoch w (bench_sight self.now).state }
    {
        match &self.setup {
            Setup::Open(pipeline) => pipeline.images(),
            Setup::Shut(_) => {}
            Setup::Gone => {}
        }
    }

    // What it is made of, taken out.
    fn take(&mut self) -> Setup<D>
        ensures setup { result ≡ self.old.setup }
        ensures answer { self.new.answer ≡ self.old.answer }
        ensures gone { ¬ (IsHonest self.new) }
    {
        replace(&mut self.setup, Setup::Gone)
    }

    // Put in again.
    fn put(&mut self, setup: Setup<D>)
        ensures setup { self.new.setup ≡ setup }
        ensures answer { self.new.answer ≡ self.old.answer }
    {
        self.setup = setup;
    }

    // The power fails.
    fn crash(&mut self, bytes: &Vec<(u64, u8)>) -> StepEvent
        ensures honest { IsHonest self.new → IsHonest self.old }
        ensures answer { (w : World) → MatchesBench w self.old → Answers w (S.Crash bytes.now) result }
        ensures stands { (w : World) → MatchesBench w self.old →
            MatchesBench (after_step w (S.Crash bytes.now) result) self.new }
        ensures moves { (w : World) → MatchesBench w self.old →
            Moves StandsFor IsLastEpoch w (S.Crash bytes.now) result (bench_sight self.old)
            (bench_sight self.new) }
        ensures paces { (w : World) (more : ℕ) → MatchesBench w self.old → IsPaced more w self.old →
            StepsPaced w (S.Crash bytes.now) result more self.new }
        ensures there { HasDevice self.old → HasDevice self.new }
    {
        match self.take() {
            Setup::Open(pipeline) => {
                let disk = crashed(pipeline.into_device(), bytes);
                self.put(Setup::Shut(disk));
                StepEvent::Crashed
            }
            Setup::Shut(disk) => {
                let disk = crashed(disk, bytes);
                self.put(Setup::Shut(disk));
                StepEvent::Crashed
            }
            Setup::Gone => StepEvent::Skipped,
        }
    }

    // The device is opened again, and all else starts again.
    fn reopen(&mut self, alloc: Global) -> StepEvent
        ensures honest { IsHonest self.new → IsHonest self.old }
        ensures answer { IsHonest self.new → (w : World) → MatchesBench w self.old →
            Answers w S.Reopen result }
        ensures stands { IsHonest self.new → (w : World) → MatchesBench w self.old →
            MatchesBench (after_step w S.Reopen result) self.new }
        ensures moves { IsHonest self.new → (w : World) → MatchesBench w self.old →
            Moves StandsFor IsLastEpoch w S.Reopen result (bench_sight self.old) (bench_sight self.new) }
        ensures paces { IsHonest self.new → (w : World) (more : ℕ) → MatchesBench w self.old →
            IsPaced more w self.old → StepsPaced w S.Reopen result more self.new }
        ensures reopened { IsReopened self.old result self.new }
        ensures there { HasDevice self.old → HasDevice self.new }
    {
        match self.take() {
            Setup::Shut(disk) => match Pipeline::<Keeper<D>>::open(alloc, disk) {
                Ok(pipeline) => {
                    let count = pipeline.count();
                    self.put(Setup::Open(pipeline));
                    StepEvent::Opened(count)
                }
                Err((fault, disk)) => {
                    self.put(Setup::Shut(disk));
                    StepEvent::Unopened(fault)
                }
            },
            Setup::Open(pipeline) => {
                self.put(Setup::Open(pipeline));
                StepEvent::Skipped
            }
            Setup::Gone => StepEvent::Skipped,
        }
    }

    // The one device call that is next. A failure closes the bench.
    fn call(&mut self) -> StepEvent
        ensures honest { IsHonest self.new → IsHonest self.old }
        ensures answer { (w : World) → MatchesBench w self.old → Answers w S.Call result }
        ensures stands { (w : World) → MatchesBench w self.old →
            MatchesBench (after_step w S.Call result) self.new }
        ensures moves { (w : World) → MatchesBench w self.old →
            Moves StandsFor IsLastEpoch w S.Call result (bench_sight self.old) (bench_sight self.new) }
        ensures paces { (w : World) (more : ℕ) → MatchesBench w self.old → IsPaced more w self.old →
            StepsPaced w S.Call result more self.new }
        ensures sure { result ≡ E.Failed → NextIsSure self.old → (w : World) → MatchesBench w self.old →
            HasFailed (bench_sight self.old).failures (bench_sight self.new).failures }
        ensures there { HasDevice self.old → HasDevice self.new }
    {
        match self.take() {
            Setup::Open(mut pipeline) => match pipeline.call() {
                Advance::More => {
                    self.put(Setup::Open(pipeline));
                    StepEvent::More
                }
                Advance::Committed => {
                    self.put(Setup::Open(pipeline));
                    StepEvent::Committed
                }
                Advance::Nothing => {
                    self.put(Setup::Open(pipeline));
                    StepEvent::Skipped
                }
                Advance::Failed => {
                    let disk = pipeline.into_device();
                    self.put(Setup::Shut(disk));
                    StepEvent::Failed
                }
            },
            Setup::Shut(disk) => {
                self.put(Setup::Shut(disk));
                StepEvent::Skipped
            }
            Setup::Gone => StepEvent::Skipped,
        }
    }

    // A step that leaves the device alone.
    fn go(&mut self, step: &Step) -> StepEvent
        requires { IsInner step.now }
        ensures honest { IsHonest self.new → IsHonest self.old }
        ensures answer { (w : World) → MatchesBench w self.old → Answers w step.now result }
        ensures stands { (w : World) → MatchesBench w self.old →
            MatchesBench (after_step w step.now result) self.new }
        ensures moves { (w : World) → MatchesBench w self.old →
            Moves StandsFor IsLastEpoch w step.now result (bench_sight self.old) (bench_sight self.new) }
        ensures paces { (w : World) (more : ℕ) → MatchesBench w self.old → IsPaced more w self.old →
            StepsPaced w step.now result more self.new }
        ensures there { HasDevice self.old → HasDevice self.new }
    {
        match self.take() {
            Setup::Open(mut pipeline) => {
                let event = pipeline.go(step, &mut self.answer);
                self.put(Setup::Open(pipeline));
                event
            }
            Setup::Shut(disk) => {
                self.put(Setup::Shut(disk));
                StepEvent::Skipped
            }
            Setup::Gone => StepEvent::Skipped,
        }
    }

    // One step.
    fn act(&mut self, alloc: Global, step: &Step) -> StepEvent
        ensures honest { IsHonest self.new → IsHonest self.old }
        ensures answer { IsHonest self.new → (w : World) → MatchesBench w self.old →
            Answers w step.now result }
        ensures stands { IsHonest self.new → (w : World) → MatchesBench w self.old →
            MatchesBench (after_step w step.now result) self.new }
        ensures moves { IsHonest self.new → (w : World) → MatchesBench w self.old →
            Moves StandsFor IsLastEpoch w step.now result (bench_sight self.old) (bench_sight self.new) }
        ensures paces { IsHonest self.new → (w : World) (more : ℕ) → MatchesBench w self.old →
            IsPaced more w self.old → StepsPaced w step.now result more self.new }
        ensures sure { step.now ≡ S.Call → result ≡ E.Failed → NextIsSure self.old → (w : World) →
            MatchesBench w self.old →
            HasFailed (bench_sight self.old).failures (bench_sight self.new).failures }
        ensures reopened { step.now ≡ S.Reopen → IsReopened self.old result self.new }
        ensures there { HasDevice self.old → HasDevice self.new }
    {
        match step {
            Step::Crash(bytes) => self.crash(bytes),
            Step::Reopen => self.reopen(alloc),
            Step::Call => self.call(),
            Step::Send(_, _) => self.go(step),
            Step::Take(_) => self.go(step),
            Step::Seal => self.go(step),
            Step::Fetch => self.go(step),
            Step::Publish => self.go(step),
            Step::Release => self.go(step),
            Step::GiveBack => self.go(step),
            Step::Receive(_) => self.go(step),
            Step::Look(_, _) => self.go(step),
        }
    }

    /// One step, before and after which the headline holds.
    pub fn step(&mut self, alloc: Global, step: &Step) -> StepEvent
        /// A device that keeps to the model after the step did so before.
        ensures honest { IsHonest self.new → IsHonest self.old }
        ensures steps { IsHonest self.new → (w : World) → MatchesBench w self.old →
            IsWorldStep w step.now result self.old self.new }
        // A call of the device fails only if the device failed in it, or if the last epoch has no room for the held batch.
        ensures sure { step.now ≡ S.Call → result ≡ E.Failed → NextIsSure self.old → (w : World) →
            MatchesBench w self.old →
            HasFailed (bench_sight self.old).failures (bench_sight self.new).failures }
        // A reopening calls the device as opening its store does.
        ensures reopened { step.now ≡ S.Reopen → IsReopened self.old result self.new }
        ensures there { HasDevice self.old → HasDevice self.new }
        ensures before { (w : World) → MatchesBench w self.old →
            Headline StandsFor IsLastEpoch w (bench_sight self.old).state }
    {
        // for the proof: what a crash leaves before the step
        self.images();
        let event = self.act(alloc, step);
        // for the proof: what a crash leaves after it
        self.images();
        event
    }

    /// The world's run of exactly these steps; the headline holds before the first of them and after each. Room for the trace was
    /// taken by then.
    pub fn run(&mut self, alloc: Global, steps: &[Step]) -> Result<Vec<StepEvent>, AllocError>
        /// A device that keeps to the model at the end did so at each point of the run, and what follows is said of such a run.
        ensures honest { IsHonest self.new → IsHonest self.old }
        ensures run { IfOk result
            (λ trace. IsHonest self.new → (w : World) → MatchesBench w self.old →
            IsWorldRun w steps.now trace.items self.old self.new) }
        ensures there { HasDevice self.old → HasDevice self.new }
        ensures memory { OnErr result (self.new ≡ self.old) }
    {
        let mut trace = Vec::with_capacity(alloc, steps.len())?;
        // for the proof: what a crash leaves before the first step
        self.images();
        for step in steps {
            let event = self.step(alloc, step);
            trace.push_reserved(event);
        }
        Ok(trace)
    }
}
