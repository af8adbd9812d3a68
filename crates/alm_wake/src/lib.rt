//! When the server's threads sleep, and who wakes them. No contract above rests on it.
//!
//! ```text
//! let flags = Flags::new(Bells::new(&slots, bells));
//! flags.send(slot);
//! let mut pace = SequencerPace::new(&flags); pace.wait(rt);
//! ```
//!
//! | thread | has | sleeps while |
//! |---|---|---|
//! | of a slot | the [`Bell`] of its slot | its source finds nothing to do |
//! | the sequencer's | a [`SequencerPace`] | it has nothing to take or seal, or the open batch waits for others to join |
//! | the flusher's | a [`FlusherPace`] | no sealed batch is there, or a console has no room for a receipt |
//!
//! [`Flags`] are what they share: hints, each read before the step that it bounds. A lost wake-up costs 100 milliseconds, and a
//! second at a slot: then each thread checks by itself. A [`Healing`] is such a hint from outside of the run. docs/develop/WAKING.md has the states of the two threads, and who reads and writes
//! each atomic. The numbers stand in `bounds`, but for a slot's second, which its port has (alm_serve).
//!
//! Not covered: how long anything takes, since no contract speaks of time that passes. Nor what an atomic has, so that a bell is rung:
//! the tests of alm_wake_tests ask who is woken.
//!
//! Proved:
//! - the open batch waits only for slots that the last one answered, once, and for half of its time or 500 microseconds (by
//!   `Gathering::pause`, `Pause::after`, `ThreadBell::sleep`)
//! - which slots are woken after a batch is answered: all that have replies of it, but who may sleep through one batch (by
//!   `Waking::reply`, `end`, `FlusherPace::release`, `answer`)
//! - by what the open batch is sealed or waits, for which slots, and which of them wakes the thread (by
//!   `SequencerPace::sealing`, `bits_of`, `wakes`)
//! - an idle thread dozes for a quarter of the last commit at most, and through no more than 16 turns (by `SequencerPace::doze`)
//! - the flusher's thread yields 32 times to a batch that is about to come, and a checkpoint continues after 10 turns without work (by
//!   `FlusherPace::stays_awake`, `has_rest`)
//! - the bell of a slot is the one that was given for it (by `Bells::new`, `of`)
#![tactic(auto)]

mod awaited;
mod bell;
mod bells;
mod bounds;
mod commit_time;
mod flags;
mod flusher_pace;
mod gathering;
mod healing;
mod pause;
mod sealing;
mod sequencer_pace;
mod thread_bell;
mod waking;

pub use awaited::Awaited;
pub use bell::Bell;
pub use bells::Bells;
pub use flags::Flags;
pub use flusher_pace::FlusherPace;
pub use gathering::Gathering;
pub use healing::Healing;
pub use pause::Pause;
pub use sealing::Sealing;
pub use sequencer_pace::SequencerPace;
pub use thread_bell::ThreadBell;
pub use waking::Waking;
