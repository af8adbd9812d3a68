//! Tests of the devices in memory: what the contracts don't cover, and each call once with ample memory.
//!
//! One run of ten calls on a device of eight bytes serves them all. [`run`] has its calls, and, worked out by hand for
//! each, what reads, what was there at the last sync and what is pending after it.
#![tactic(auto)]

#[cfg(test)]
mod choosers;
#[cfg(test)]
mod counted;
#[cfg(test)]
mod crashes;
#[cfg(test)]
mod faults;
#[cfg(test)]
mod holds;
#[cfg(test)]
mod record;
#[cfg(test)]
mod refused;
#[cfg(test)]
mod run;
