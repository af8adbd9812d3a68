//! A history of a run's moments: its device at each of them, and up to which count actions could be reported.
//!
//! ```text
//! let mut recorder = Recorder::<J>::new(NewHistory::new(), &store)?;
//! recorder.record(&CurrentState { store, fetch, floor });
//! let held = recorder.moments();
//! ```
//!
//! | name | is |
//! |---|---|
//! | [`RunId`] | which run it is: its two histories, and what it begins with |
//! | [`Recorder`] | the one writer of the history of moments |
//! | [`Moments`] | a prefix of the history that was seen: no bytes, however long |
//!
//! What is used above: between two moments lies one device call, or none. At each moment whatever a crash leaves of an honest
//! device encodes a prefix of the actions that were accepted by then. The prefix contains as many as the moment's floor says.
//! Floors never fall. So a value that carries moments says of a run, whatever it does afterwards, what stays on its device
//! ([`laws`]).
//!
//! Not covered: that a moment is added at each device call. The owner of [`Recorder`] does so.
//!
//! Proved:
//! - a moment follows the last by one device call, or by none; at each any image of an honest device holds a prefix that
//!   reaches its floor (by `Recorder::record`)
//! - the history takes each moment that follows (by `Recorder::record`)
//! - **what is held at moments that were seen is held at each later one, whenever power fails** (by
//!   `laws::what_is_held_stays_stored`)
//! - what a crash may leave at a moment is what it may leave of the device then (by
//!   `laws::a_moment_has_the_images_of_its_device`)
#![tactic(auto)]

mod append_moment;
mod current_state;
pub mod laws;
mod moments;
mod of_moments;
mod recorded_moment;
mod recorder;
mod run_id;

pub use current_state::CurrentState;
pub use moments::Moments;
pub use recorded_moment::RecordedMoment;
pub use recorder::Recorder;
pub use run_id::RunId;
