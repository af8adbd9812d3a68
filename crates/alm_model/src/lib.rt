//! The plant: its definitions, the trait that every plant has, and the plain plant that computes them.
//!
//! ```text
//! let mut plant = PlainPlant::new(alloc, &table)?;
//! let verdict = judge(&mut plant, request);
//! let count = look(&plant, Query::State(alarm), &mut answer)?;
//! ```
//!
//! The definitions are in specs/, for contracts and for readers:
//!
//! | file | what it defines |
//! |---|---|
//! | Plant | the plant: clock, count, next stamp, alarms by number, annunciations (all of them, or condensed), flood flags |
//! | Accept | which requests are accepted, and the first refusal of each other |
//! | Step | what an action does: `after` on the whole plant, `step` on the condensed one, `run` for a list of actions |
//! | Lists | the lists by priority, area and wheel slot, and those of the measures |
//! | Judging | what is answered to a request, the plant after the answer, and the legal histories: lists of requests with their answers |
//! | Keeping, Condense, Counted | windows, floods and chattering, from all annunciations and condensed |
//! | Rules | the one record of what every plant keeps |
//! | New, Parts | the new plant of a table, and the plant of its parts |
//!
//! What is used above: a plant that is [`Alarms`] is one value, the condensed plant, and each call says what it does to
//! that value. `check` is the acceptance of the definitions, `apply` their step, `fill` their lists. Of the calls,
//! `new`, `build` and `copy` are those that allocate. [`PlainPlant`] stores the rows by number and computes a list by
//! filtering and sorting: it is slow, and faster plants are compared with it. Not covered: time.
//!
//! Proved:
//! - the plain plant accepts exactly what the definitions accept, with the first refusal of all else; an action gives
//!   exactly the next plant (by `Alarms::check`, `admits`, `apply`, `apply_all`, `judge`, `accepted_in`)
//! - its lists, windows, ages and moments are those of the definitions; a copy is the same plant; every plant keeps the
//!   rules (by `fill`, `window`, `age`, `moments`, `copy`, `build`, `alarms`)
//! - a query changes only what it asked for; it is out of memory only if its list had too little room and a growth was
//!   refused (by `look`)
//! - laws: the condensed plant goes along with the whole one, lists are filters in stamp order, windows and floods are
//!   counted (by `laws::measures`, `laws::rules`, `laws::lists`)
#![tactic(auto)]

mod ages;
mod alarms;
mod alarms_by_number;
mod floods;
mod judging;
pub mod laws;
mod list;
mod lists;
mod order;
mod plain_plant;
mod plain_rows;
mod plant_parts;
mod queries;
mod recent;
mod roles;
mod run;
mod wanted;

pub use ages::Ages;
pub use alarms::Alarms;
pub use alarms_by_number::AlarmsByNumber;
pub use floods::is_flood;
pub use judging::{accepted_in, judge};
pub use list::{List, WHEEL_SLOTS};
pub use lists::fill_by_number;
pub use plain_plant::PlainPlant;
pub use plant_parts::PlantParts;
pub use queries::look;
pub use recent::{Recent, copy_moments, no_moments};
pub use roles::may_ask;
pub use run::apply_all;
