//! Commits, publishes and releases.
//!
//! ```text
//! let mut flusher = Flusher::new(store, board, outboxes, ends);
//! flusher.fetch(); while let Advance::More = flusher.advance() {}
//! flusher.publish(rt); while let Release::Released(_) = flusher.release() {}
//! ```
//!
//! The flusher holds one sealed batch: it stores it, shows it on the board, and releases the verdicts of its entries to their
//! slots, in order. Then it fetches the next one.
//!
//! | held | call | then |
//! |---|---|---|
//! | no batch | [`Flusher::fetch`] | fetched |
//! | fetched | [`Flusher::advance`], once for each device call | committed, or failed permanently |
//! | committed | [`Flusher::publish`] | published, and no verdict released |
//! | published | [`Flusher::release`], once for each verdict | published, and one verdict more released |
//! | published, all verdicts released | [`Flusher::give_back`] | no batch |
//!
//! A batch without actions is committed without a device call. If more than half of the segment is used after a commit a
//! checkpoint is opened. It goes out in pieces of at most 65,536 bytes: one before each commit of a batch that the store takes,
//! and without a batch one after the other. For a batch that isn't taken, a checkpoint is opened unless one is open already, and
//! the batch is committed after it. [`Flusher::heal`] opens one between two batches.
//!
//! What is used above: a verdict is released only if the stored and the published list both hold its number. The published list
//! is always a prefix of the stored one. The receipts released to a slot have, in order, the verdicts of that slot's entries, as
//! far as the flusher has got. No call but `publish` takes memory or waits.
//!
//! While a batch waits that was taken as it was fetched, no more than one piece goes out (`waits` of
//! [`Flusher::advance`]), and the count of its bytes isn't reset (`counted`). A store that keeps its pace takes each
//! batch as it is fetched, if the half that stands is of version 02 or 03 (`taken` of [`Flusher::fetch`]). After its opening
//! a store keeps its pace if at most half of the segment is used. Each call preserves this, as long as the segment has
//! 452,651 bytes or more and epochs are left (`pace` and `newest` of both calls; alm_store's Pace says what that is).
//!
//! Not covered: that a reply is ever released. A ring may stay full, and a store may stop.
//!
//! | call | answers |
//! |---|---|
//! | `fetch` | Got; Empty only if the ring knew no batch; Held while one is held |
//! | `advance` | at most one device call: More, Committed, Failed, or Nothing without a batch to commit and an open checkpoint |
//! | `heal` | whether a checkpoint was opened: only if no batch is held, the store has no work under way, and epochs are left |
//! | `publish` | Published; OutOfMemory, with the shown list as before; NotYet without a committed batch |
//! | `release` | Released to a slot; Full if that slot's ring knew no place, and the reply stays; Nothing if none is left |
//! | `give_back` | whether the batch was returned, all its replies released |
//!
//! Not covered: that a batch is ever fetched or a reply ever released, and time.
//!
//! Proved:
//! - a verdict is released only if the stored and the published list hold its number; what is published is always a prefix
//!   of what is stored (by `Flusher::release`, `publish`)
//! - a slot was released the verdicts on its entries of the fetched batches, one after the other (by `release`,
//!   `replies_beside`)
//! - at most one device call a step, none for a batch without actions. The first failure has a cause; after it every step
//!   fails without a call (by `Flusher::new`, `advance`, `into_keeper`)
//! - a commit waits for at most one piece of a checkpoint, 65,536 bytes, if the segment took its batch as it was fetched
//!   (by `fetch`, `advance`, `give_back`)
//! - after a commit a checkpoint is open if more than half of the segment is used (but in the last epoch). None is opened
//!   otherwise, except between two batches where one is asked for (by `advance`, `heal`)
//! - opened with at most half of a segment of 452,651 bytes or more used, in a half with all actions, it takes every batch
//!   while epochs are left (by `Flusher::new`, `fetch`)
#![tactic(auto)]

mod advance;
mod commit;
mod fetch;
mod flusher;
mod held;
mod publishes;
mod release;

pub use advance::Advance;
pub use fetch::Fetch;
pub use flusher::Flusher;
pub use held::Held;
pub use publishes::Publishes;
pub use release::Release;
