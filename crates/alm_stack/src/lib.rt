//! The whole stack over a device, one request at a time: the base of a desk whose answers must survive a power failure. It drives
//! the same pipeline as the bench, so each request is a run of the world's steps.
//!
//! ```text
//! let mut stack = Stack::open(alloc, device)?;
//! let judged = stack.submit(&request)?;
//! let device = stack.into_disk();
//! ```
//!
//! Each request goes the whole way before its answer is returned. The steps are Send, Take, Seal and Fetch, as many Calls as its
//! commit takes, then Publish, Release, GiveBack and Receive:
//!
//! ```text
//! console > [ring] > sequencer (judged on the live plant) > open batch > [ring] > flusher > keeper (four device calls, each
//! write with its sync) > board > receipt > [ring] > console
//! ```
//!
//! What is used above is that it is a [`Backend`](alm_desk::Backend): an answer is what the plant answers, and it is returned
//! after the action is stored. `submit` also says that it is the reply of a run of those steps in the world that the stack has
//! (`run`; [`Stack::open`] says with which it begins). With an honest device the headline holds before the first of them and
//! after each. The calls of its commit meet the pace that a bench's meet (`paced`). What a crash leaves between requests is
//! said by [`Stack::images`]: each image of the device encodes the plant while the stack runs. After its storage has stopped,
//! an image encodes the plant before, without the action that met the stop or with it. It stops only if a device call of that
//! request failed, if the last epoch is used up, or if a slot's serials are.
//!
//! The premise of what is said of images is that the device does what its trait says. Not covered: that memory suffices to open
//! it, and a device that has failed.
//!
//! Proved:
//! - an answer is what the plant answers, once its action is stored and published; a request is a run of the bench's steps,
//!   a query a look (by `StackOver::open`, `submit`, `ask`)
//! - each image holds the plant; once storage has stopped, the plant before, with or without the action that met the stop
//!   (by `images`, `into_disk`, `backend`)
//! - it stops only if the device failed, or the last epoch or the slot's serials are spent; a commit takes at most 647
//!   device calls (by `submit`)
#![tactic(auto)]

mod exchange;
mod stack;

pub use stack::{Stack, StackOver};
