//! The published plant, which threads share.
//!
//! ```text
//! let (mut board, looks) = open_board(alloc, history, &moments, plant, slots)?;
//! board.publish(rt, &moments, &batch)?; look.learn(receipt);
//! let count = look.look(query, &mut answer)?;
//! ```
//!
//! One thread publishes batches, and each slot reads what is published, without a lock. The plant is shown with the list of the
//! actions that it comes from.
//!
//! | name | is |
//! |---|---|
//! | [`SharedBoard`], [`open_board`] | the board, and what opens it with its looks |
//! | [`SharedLook`] | one slot's view of it |
//! | [`ActionPrefix`] | a prefix of the run's history of actions, eight bytes however long it is |
//! | [`Durable`] | what receipts report and looks know: a prefix that stays on the device ([`laws`]) |
//! | [`ActionHistory`] | the one writer of that history |
//! | [`NewRun`] | the histories of a run, before it has a name |
//! | [`Publisher`] | any value that is shown to threads |
//! | [`ReaderSight`] | what a reader knows of its looks |
//!
//! What is used above: a look shows the plant of a list of published actions, with its count. Earlier looks by the same reader
//! saw prefixes of that list, and each receipt that it learnt reported a prefix, whatever thread published it. A refused publish
//! leaves the shown list as it was, and the next call continues from there. This is what [`alm_board::Board`],
//! [`alm_board::Publish`] and [`alm_board::Look`] say, at these types.
//!
//! [`Publisher::turn`], [`Publisher::take`] and a publish may wait for readers of the older plant. Opening a board, a look, and
//! reporting or learning a list never wait: their contracts have no handle to wait by. The last two take no memory, and a look
//! only for the list that a query asks for.
//!
//! Not covered: which of a look and a publish of another thread comes first, that a publish ever gets its memory, and time.
//!
//! Proved:
//! - a look of the threads shows such a prefix too, and waits for nobody. It says Stopped only of an alarm or a list that
//!   exists (by `open_board`, `Look::look`, `learn` at `SharedLook`)
//! - a look says Stopped only if that very look was turned back. That `GoneCount` counts nothing else was checked by reading (by
//!   `Look::look`, `Recall::recall` at `SharedLook`)
//! - **what a look answers is of the list that was published at a step of that very look** (by `Look::look` at `SharedLook`, whose
//!   `looked` says so)
//! - the history takes the accepted actions of each batch: no publish is refused for want of a place in it (by the type
//!   `ActionHistory`)
//! - a refused publish shows nothing new and leaves a prefix of its batch; a granted one shows all of it (by
//!   `Publish::publish` at `SharedBoard`, `Publisher::take`)
//! - **what a receipt reports or a look has shown stays stored, whether the run ever returns or not** (by
//!   `laws::what_is_told_stays_stored`)
#![tactic(auto)]

mod action_history;
mod action_prefix;
mod append_actions;
mod append_step;
mod board;
mod durable;
mod extent;
mod gone_count;
mod handing;
pub mod laws;
mod looks_once;
mod new_run;
mod next_shown;
mod of_actions;
mod open;
mod publisher;
mod reader_sight;
mod readers_rule;
mod shared_board;
mod shared_look;
mod shared_recall;
mod shown_plant;
mod shows_next;

pub use action_history::ActionHistory;
pub use action_prefix::ActionPrefix;
pub use append_actions::Growth;
pub use append_step::AppendStep;
pub use durable::Durable;
pub use extent::Extent;
pub use new_run::NewRun;
pub use next_shown::NextShown;
pub use open::open_board;
pub use publisher::Publisher;
pub use reader_sight::ReaderSight;
pub use readers_rule::ReadersRule;
pub use shared_board::SharedBoard;
pub use shared_look::SharedLook;
pub use shown_plant::ShownPlant;
