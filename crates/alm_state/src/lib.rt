//! One alarm: when its condition comes and goes, the table of its core states, and what becomes of it under each action.
//!
//! ```text
//! let happening = detect(&attr, row.active, reading);
//! let refused = row_refusal(&action, &attr, &row);
//! let outcome = outcome_of(now, stamp, &action, &attr, &row);
//! ```
//!
//! The states and their names follow the alarm state model of ANSI/ISA-18.2 and IEC 62682. They are normal,
//! unacknowledged, acknowledged, returned to normal unacknowledged, the latched variants, and shelved, suppressed by
//! design and out of service. This project's own are all figures, and that a latching alarm, once acknowledged and
//! gone, stays annunciated until it is reset.
//!
//! | happening | state before | state after, not latching | state after, latching |
//! |---|---|---|---|
//! | condition comes | Normal, RtnUnack, LatchAcked, LatchUnack | Unack, annunciated again | Unack, annunciated again |
//! | the condition goes | Unack | RtnUnack | LatchUnack |
//! | it goes | Acked | Normal | LatchAcked |
//! | an acknowledgement | Unack | Acked | Acked |
//! | an acknowledgement | RtnUnack | Normal | |
//! | an acknowledgement | LatchUnack | | LatchAcked |
//! | a reset | LatchAcked | | Normal |
//!
//! The core state is Normal while any flag is set, but the condition is still followed. Once no flag is set, an alarm whose
//! condition holds is annunciated again. Setting a priority or a setpoint does not change the alarm's state: a new setpoint
//! counts from the next value on.
//!
//! What is used above: `Core::next` is the table and `detect` the detection table. `row_refusal` says why an alarm
//! refuses an action, `outcome_of` what becomes of it, and `attr_after` what its attributes are after it.
//!
//! Not covered: other alarms, who may ask, and the clock itself, whose moment and next stamp are arguments. Whether the plant
//! admits an action is said by the plant.
//!
//! Proved:
//! - conditions and core states go by their tables; what each action makes of one alarm, or why the alarm refuses it (by
//!   `detect`, `Core::next`, `outcome_of`, `row_refusal`, `Row::shown`)
#![tactic(auto)]

mod attributes;
mod core_state;
mod detection;
mod happening;
mod outcome;
mod outcomes;
mod refusals;
mod row;
mod showing;

pub use attributes::attr_after;
pub use core_state::Core;
pub use detection::detect;
pub use happening::Happening;
pub use outcome::Outcome;
pub use outcomes::outcome_of;
pub use refusals::row_refusal;
pub use row::Row;
