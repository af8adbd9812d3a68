//! Tests of a session: what comes over wires that are cut, blocked or lost, and what goes out.
//!
//! [`playing`] answers requests in one thread, and [`still`] is a published plant that stays. The rest are tests.
#![tactic(auto)]

#[cfg(test)]
mod hostile;
#[cfg(test)]
mod piece_wire;
pub mod playing;
#[cfg(test)]
mod refused;
#[cfg(test)]
mod rows;
pub mod still;
