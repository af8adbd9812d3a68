//! Tests of the measure, compared with a plain plant and with figures worked out by hand.
//!
//! | module | what it tries |
//! |---|---|
//! | `rows` | the worked rows of floods and of chattering alarms |
//! | `jumps` | what jumps of the clock leave, from a second to the last moment |
//! | `drawn` | 10,000 drawn actions, then copies and measures made of what the plant reports: each figure is that of a plain plant |
//! | `largest` | a measure of 16,384 alarms |
//! | `refused` | out of memory: what can't be copied stays as it is |
//!
//! They are in a crate of their own: a crate with tests is proved twice.
#![tactic(auto)]

#[cfg(test)]
mod beside;
#[cfg(test)]
mod drawn;
#[cfg(test)]
mod jumps;
#[cfg(test)]
mod largest;
#[cfg(test)]
mod refused;
#[cfg(test)]
mod rows;
#[cfg(test)]
mod tables;
#[cfg(test)]
mod told;
#[cfg(test)]
mod watched;
