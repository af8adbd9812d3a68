//! Accepts requests, and numbers them.
//!
//! ```text
//! let mut sequencer = Sequencer::new(plant, inboxes, ends);
//! let took = sequencer.take(slot);
//! let sealed = sequencer.seal();
//! ```
//!
//! The sequencer's thread takes requests from all slots, in whatever order it likes, and judges each on the live plant: that
//! order is the one history of the server. Judged requests gather in the open batch; sealed batches go to the flusher.
//!
//! | call | answer | condition |
//! |---|---|---|
//! | [`Sequencer::take`] | [`Take::Taken`] | the slot's next request was judged, and joined the open batch |
//! | | [`Take::Empty`] | the slot's ring knew no request |
//! | | [`Take::BatchFull`] | the open batch has 256 entries |
//! | [`Sequencer::seal`] | [`Seal::Sealed`] | the open batch went to the flusher, and an empty one is open |
//! | | [`Seal::NothingToSeal`] | the open batch has no entry |
//! | | [`Seal::NoRoom`] | no empty batch is known, or no place for a sealed one |
//!
//! What is used above: at all times the entries of the sealed batches and then of the open one are one legal history from the
//! base plant on. Each verdict is on the plant of all actions accepted earlier. For each slot the entries answer the requests
//! that were taken, each once, in order. No call takes memory, and none waits.
//!
//! Not covered: that a request is ever taken. The caller chooses the slots.
//!
//! | call | answers |
//! |---|---|
//! | `take` | the verdict on a slot's next request; Empty only if that ring knew none; BatchFull at 256 entries |
//! | `seal` | Sealed; NothingToSeal without an entry; NoRoom if no empty batch is known to wait |
//! | `waits`, `live` | whether a request of a slot is known to wait; the plant of all accepted actions |
//!
//! Not covered: that a slot is ever asked, any order between slots, and time.
//!
//! Proved:
//! - all batches are one legal history of one thread; of each slot they answer the requests taken, each once, in order (by
//!   `Sequencer::new`, `take`, `seal`, `waits`, `live`, `into_ends`)
#![tactic(auto)]

mod seal;
mod sequencer;
mod take;

pub use seal::Seal;
pub use sequencer::Sequencer;
pub use take::Take;
