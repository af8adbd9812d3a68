//! The worked rows of the alarm server, run through its public calls.
//!
//! Each row of `rows` begins with a new plant of the worked table: a line at a slot, and its one reply. A row is fed line by
//! line, over the linked plant and the plain one. It is fed again in two pieces cut at each of its bytes, and once over a
//! formatted device in memory.
#![tactic(auto)]

#[cfg(test)]
mod check;
#[cfg(test)]
mod damaged;
pub mod desk;
#[cfg(test)]
mod device_desk;
#[cfg(test)]
mod happened;
#[cfg(test)]
mod refused;
#[cfg(test)]
mod rows;
#[cfg(test)]
mod slow_writer;
#[cfg(test)]
mod stops;
#[cfg(test)]
mod tests;
