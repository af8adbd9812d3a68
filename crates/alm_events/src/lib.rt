//! The last accepted actions of a plant, in memory that is taken once.
//!
//! ```text
//! let mut recent = RecentEvents::new(alloc)?;
//! apply_logged(&mut plant, &mut recent, &logged);
//! let known = recent.recall(plant.count(), after, &mut events);
//! ```
//!
//! What is used above: a [`RecentEvents`] is the list of the last 65,536 events that were put into it, oldest first. A recall
//! copies those after a number, at most 256, and says whether all after it are still kept.
//!
//! Not covered: of which plant they are; who holds a [`RecentEvents`] says it.
//!
//! Proved:
//! - what is recalled are the next events of the whole history, or it is said that one is forgotten (by
//!   `RecentEvents::push`, `recall`)
#![tactic(auto)]

mod applying;
mod recalled;
mod recent_events;

pub use applying::apply_logged;
pub use recalled::Recalled;
pub use recent_events::{MOST_KEPT, MOST_TOLD, RecentEvents};
