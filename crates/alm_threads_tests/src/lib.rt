//! Runs of the server's threads over devices in memory: what the contracts don't cover.
//!
//! | file | has |
//! |---|---|
//! | [`caller`] | a source that sends drawn requests, of [`drawn`] |
//! | [`script`] | a source that plays steps, one after another |
//! | [`asker`], [`looker`] | a source that asks for what is always accepted, and one that only makes looks: for the benchmark |
//! | [`player`] | one of these |
//! | [`notes`] | what the sources note while they run |
//! | [`all_slots`], [`devices`] | slots with their callers, and devices |
//! | [`gate`] | a hold that a look and a take of another slot open |
//! | [`course`] | one run, from a device to what is left of it |
//! | [`folds`] | the plant of what was accepted |
//!
//! They are proved with the crate itself; the rest are tests.
#![tactic(auto)]

pub mod all_slots;
pub mod asker;
pub mod caller;
pub mod course;
pub mod devices;
pub mod drawn;
#[cfg(test)]
mod faults;
pub mod folds;
pub mod gate;
#[cfg(test)]
mod healing;
pub mod looker;
#[cfg(test)]
mod looks;
pub mod notes;
#[cfg(test)]
mod outages;
pub mod player;
#[cfg(test)]
mod refusals;
#[cfg(test)]
mod refused;
#[cfg(test)]
mod rows;
#[cfg(test)]
mod runs;
pub mod script;
#[cfg(test)]
mod sizes;
#[cfg(test)]
mod stopped;
#[cfg(test)]
mod stops;
#[cfg(test)]
mod watched;
