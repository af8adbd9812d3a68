//! Tests of the bench over devices in memory.
//!
//! | module | what it runs |
//! |---|---|
//! | `rows` | the worked course of one action, crashes within its commit, a failure of the device, a refusal after an action |
//! | `pieces` | a crash after each call of three commits between which a checkpoint goes out in pieces |
//! | `drawn` | drawn steps of four slots with crashes at drawn calls and drawn bytes: the trace is that of a world kept here |
//! | `rounds` | drawn rounds of large batches, so that a checkpoint is often open, with a crash after each of their calls |
//! | `refused` | a run that finds no memory makes no step |
//! | `world` | that world: plain vectors, and the plain plant |
//!
//! They are in a crate of their own: a crate with tests is proved twice. Expected answers are those of the worked rows, or of the
//! world, which is independent of the bench.
#![tactic(auto)]

#[cfg(test)]
mod drawn;
#[cfg(test)]
mod pieces;
#[cfg(test)]
mod refused;
#[cfg(test)]
mod rounds;
#[cfg(test)]
mod rows;
#[cfg(test)]
mod traces;
#[cfg(test)]
mod world;
