//! The ends by which the threads of the server pass requests, receipts and batches to each other.
//!
//! ```text
//! let (mut console, mut inbox, mut outbox) = open_slot(alloc, slot)?;
//! let serial = console.send(want)?; let taken = inbox.take();
//! outbox.release(receipt)?; let receipt = console.receive();
//! ```
//!
//! Each slot has three ends over two rings of 64. The batches pass through two rings of eight, and there are eight
//! batches in all.
//!
//! | ring | what goes in | what comes out |
//! |---|---|---|
//! | requests | [`Console::send`] | [`Inbox::take`] |
//! | receipts | [`Outbox::release`] | [`Console::receive`] |
//! | sealed batches | [`SealEnds::seal`] | [`FetchEnds::fetch`] |
//! | empty batches | [`FetchEnds::give_back`] | [`SealEnds::empty`] |
//!
//! [`open_slot`], [`open_slots`] and [`open_batches`] take all the memory that is needed. No other call takes any, and none
//! waits. If a ring is not known to have a free place, what was to go in is returned; if it is not known to hold an item, none
//! comes out. Each such answer has its causes in the contract, and changes nothing.
//!
//! What is used above: contracts see all that ever went into a ring at one end, and all that ever came out at the
//! other. Every call says that it is still the same end, and what became of these lists. Between threads the two lists
//! are not related until both ends are in one thread. Then [`beside`], its halves [`requests_beside`] and
//! [`replies_beside`], [`batches_beside`] and [`close_slot`] say that what came out is a prefix of what went in. A
//! [`Receipt`] says more by its type, in whatever thread. The list that it reports reaches its number. An accepted action is in
//! the list at that number, as the one of this slot's request with this serial. A batch that is returned has no entries. The holder of the ends of many slots
//! finds them by their slots: specs/Placed defines the end of a slot, and what it means that no slot has two ends.
//!
//! Not covered: that anything sent is ever taken, or anything released ever received.
//!
//! Proved:
//! - what comes out of a ring is a prefix of what went in. A receipt's list reaches its number, and has an accepted
//!   action there, as its request's (by `Inbox::take`, `beside`, `close_slot`, the type `Receipt`)
//! - `Busy` comes only if 64 are unanswered, the ring knew no place, or serials are spent; other ends fail only if their
//!   ring knew no item or place (by `Console::send`, `receive`, `Outbox::release`, `SealEnds`, `FetchEnds`)
#![tactic(auto)]

mod all_slots;
mod batches;
mod busy;
mod console;
mod emptied;
mod fetch_ends;
mod inbox;
mod outbox;
mod receipt;
mod seal_ends;
mod serials;
mod slot;
mod slot_report;
mod told;

pub use all_slots::{SlotEnds, open_slots};
pub use batches::{batches_beside, open_batches};
pub use busy::Busy;
pub use console::{Console, MOST_OUT};
pub use fetch_ends::FetchEnds;
pub use inbox::Inbox;
pub use outbox::Outbox;
pub use receipt::Receipt;
pub use seal_ends::SealEnds;
pub use slot::{beside, close_slot, open_slot, replies_beside, requests_beside};
pub use slot_report::SlotReport;
pub use told::Told;
