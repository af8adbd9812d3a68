//! Tests of the parts between the threads, driven in one thread: the sequencer, the flusher and the plain board, with the ends of
//! all 18 slots. The store is a keeper of a formatted device.
//!
//! [`parts`] has them all, and is proved with the crate itself. Expected answers are those of the worked rows, or counted by
//! hand. A frame of one action has 35 bytes. A commit is four device calls, and so is a checkpoint of one piece if the other
//! half's gate reads closed.
#![tactic(auto)]

#[cfg(test)]
mod course;
#[cfg(test)]
mod healing;
#[cfg(test)]
mod migration;
pub mod opened;
pub mod parts;
#[cfg(test)]
mod pieces;
#[cfg(test)]
mod rows;
#[cfg(test)]
mod slots;
#[cfg(test)]
mod storage;
