//! The values of the alarm server, each in its range by construction.
//!
//! ```text
//! let moment = Moment::new(1_700_000_000)?;
//! let request = Request { slot: Slot::new(0)?, want: Want::Do(Action::Ack(AlarmId(7))) };
//! let table = Table::new(alarms, 4)?;
//! ```
//!
//! | value | range | made by |
//! |---|---|---|
//! | [`Moment`] | below 2^40 seconds | `Moment::new` |
//! | [`Reading`] | -10^12 to 10^12 | `Reading::new` |
//! | [`Slot`] | 0 to 15 consoles, 16 the feed, 17 the clock | `Slot::new` |
//! | [`Tag`], [`Text`] | 1 to 32 and 0 to 80 bytes that print | `Tag::new`, `Text::new` |
//! | [`Attr`] | the limits of each attribute | `Attr::new` |
//! | [`Table`] | 1 to 16,384 alarms in 1 to 64 areas | `Table::new` |
//! | [`Batch`] | at most 256 entries, their room reserved | `Batch::new` |
//!
//! There are also the values that pass between the parts of the server: [`Action`], [`Want`], [`Request`],
//! [`Verdict`], [`Refusal`], [`Entry`], [`LoggedAction`], [`Event`], [`Query`] and [`Answer`].
//!
//! What is used above: a value is in its range. Limits, formats and refusals are this project's own.
//!
//! Not covered: that an alarm with the number of an `AlarmId` exists, which the plant says; that an [`Answer`] is about one
//! plant, which the call that fills it says. No order between the slots of a [`Request`] is covered either.
//!
//! Proved:
//! - every value is in its range; each maker says exactly when it refuses, and with which of several faults (by
//!   `Moment::new`, `Reading::new`, `Attr::new`, `Table::new`, `Batch::push`)
#![tactic(auto)]

mod action;
mod alarm_id;
mod alarm_row;
mod answer;
mod attr;
mod attr_fault;
mod batch;
mod entry;
mod event;
mod kind;
mod last_moments;
mod logged_action;
mod moment;
mod printed;
mod query;
mod reading;
mod refusal;
mod refused_growths;
mod request;
mod role;
mod settings;
mod shown;
mod slot;
mod table;
mod table_fault;
mod tag;
mod text;
mod verdict;
mod want;

pub use action::{Action, MOST_ACTIONS};
pub use alarm_id::AlarmId;
pub use alarm_row::AlarmRow;
pub use answer::Answer;
pub use attr::Attr;
pub use attr_fault::AttrFault;
pub use batch::{Batch, MOST_ENTRIES};
pub use entry::Entry;
pub use event::Event;
pub use kind::Kind;
pub use last_moments::LastMoments;
pub use logged_action::LoggedAction;
pub use moment::Moment;
pub use query::Query;
pub use reading::Reading;
pub use refusal::Refusal;
pub use refused_growths::RefusedGrowths;
pub use request::Request;
pub use role::Role;
pub use settings::Settings;
pub use shown::Shown;
pub use slot::{SLOTS, Slot};
pub use table::{MOST_ALARMS, MOST_AREAS, Table};
pub use table_fault::TableFault;
pub use tag::Tag;
pub use text::Text;
pub use verdict::Verdict;
pub use want::Want;
