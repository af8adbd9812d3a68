//! The parts of a server over one device, driven step by step in one thread: every interleaving of consoles, sequencer,
//! flusher and device, with crashes and reopenings.
//!
//! ```text
//! let mut bench = Bench::new(alloc, disk)?;
//! let event = bench.step(alloc, &Step::Send(slot, action));
//! let (trace, disk) = life(alloc, disk, &steps)?;
//! ```
//!
//! | name | is |
//! |---|---|
//! | [`Bench`] | all parts over a device, or a closed device alone |
//! | [`Step`] | what happens next: a slot sends or receives, a part makes a step, the power fails, the device is opened again |
//! | [`StepEvent`] | what came of it; the events of a run are its trace |
//! | [`life`] | a run from a formatted device, which is returned |
//! | [`whole_life`] | a run from a device that is formatted first, and returned |
//! | [`laws`] | what was reported or shown in a run is recovered ever after; fair rounds answer all |
//!
//! The one contract that is used above is that of [`Bench::run`], and [`life`] says it in one call. The trace is that
//! of a world of plain lists (alm_pipeline, specs/World.antt): each event is the answer of its step. Skipped means that
//! the step isn't possible or a look is refused. Before the first step and after each, every image that a crash may
//! leave of the device encodes the plant that a prefix of the accepted actions makes. The prefix contains each action
//! that a look showed or whose reply was released. Each list of that plant consists of the alarms that belong to it,
//! sorted by stamp (alm_pipeline, specs/Headline.antt). Each commit ends (alm_pipeline, specs/Pace.antt), so the laws of
//! alm_progress apply to its runs.
//!
//! The premise is that the device does what its trait says of it, up to the end of the run, and that it was formatted. What a
//! reopening reads may show that it doesn't; a device in memory always does. Not covered: that any step is
//! possible again after a failure, that memory suffices, and threads that run concurrently.
//!
//! Proved:
//! - the headline: for any steps, crashes and reopenings the trace is a run of alm_pipeline's world, and nothing reported is
//!   lost (by `life`, `whole_life`, `Bench::new`, `step`, `run`; `laws`)
//! - each commit ends: at most 646 calls of a held batch return More (by `life`, `whole_life`, `step`, `run`)
//! - fair rounds, as many as steps were left, in which no call fails, receive all that was sent before them (by `run`;
//!   `laws::fair_rounds_answer_all`)
//! - opening then returns a plant, Disk or out of memory, never Unformatted or Damaged; a Call does to the device what one
//!   device call does, or nothing (by `life`, `step`, `run`)
#![tactic(auto)]

mod bench;
pub mod laws;
mod named;
mod setup;
mod whole;

pub use alm_pipeline::{Step, StepEvent};
pub use bench::Bench;
pub use whole::{life, whole_life};
