//! The parts from request to receipt over one store, in one thread: what the bench drives through every interleaving, and a desk
//! over a device one request at a time. A step is a method, and each says what it answers in a world of plain lists.
//!
//! ```text
//! let mut pipeline = Pipeline::open(alloc, device)?;
//! let sent = pipeline.send(slot, action); let took = pipeline.take(slot);
//! pipeline.seal(); pipeline.fetch(); pipeline.call();
//! ```
//!
//! | name | is |
//! |---|---|
//! | [`Pipeline`] | the consoles of all slots, the sequencer, and the flusher with its board, over any store |
//! | [`Step`] | what happens next: a slot sends or receives, a part makes a step, the power fails, the device is opened again |
//! | [`StepEvent`] | what came of it |
//!
//! What is used above: each step answers an event. In a world of plain lists (specs/World.antt) that event is the step's answer.
//! The pipeline is then that of the world after it (`answer` and `fits` of each step). Skipped means that the step isn't possible
//! or a look is refused. What a call does to the device is said by `moves`, and what a crash leaves by [`Pipeline::images`]. Each
//! image encodes the plant that a prefix of the accepted actions makes, and the prefix contains all that was reported
//! (specs/Headline.antt). How often the calls of a commit return More is said by `paces` of `fetch`, `call` and `go`
//! (specs/Pace.antt).
//!
//! Not covered: that memory suffices to open one, and threads that run concurrently.
//!
//! Proved:
//! - over any store each event answers its step in a world of plain lists, and the pipeline is then that of the world after
//!   it (by `Pipeline::open`, `send` .. `receive`, `look`)
//! - honest device: each image holds a prefix of the accepted actions with all that was reported; why a call fails or is
//!   skipped (by `call`, `images`)
//! - over any device the calls of a held batch's commit return More at most 646 times (by `fetch`, `call`, `go`)
#![tactic(auto)]

mod opening;
mod pipeline;
mod step;
mod step_event;

pub use pipeline::Pipeline;
pub use step::Step;
pub use step_event::StepEvent;
