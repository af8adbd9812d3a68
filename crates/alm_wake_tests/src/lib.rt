//! Tests of who is woken, and of when a thread sleeps: no contract of an atomic can say it. A server that wakes nobody goes on
//! all the same, since each thread checks by itself after a while.
//!
//! [`counter`] has the bell that they ring, and is proved with the crate itself.
#![tactic(auto)]

#[cfg(test)]
mod awaiting;
#[cfg(test)]
mod bells;
pub mod counter;
#[cfg(test)]
mod gathering;
#[cfg(test)]
mod resting;
#[cfg(test)]
mod sleeping;
#[cfg(test)]
mod waking;
