//! Windows, floods and last moments of alarms, counted as they come.
//!
//! ```text
//! let mut measure = Measure::new(alloc, &table)?;
//! measure.annunciated(alarm); measure.settle();
//! let flood = measure.flood(area);
//! ```
//!
//! Two terms of ANSI/ISA-18.2 and IEC 62682. An operating position with more annunciated alarms than its operator can answer is
//! in a *flood*. An alarm that is annunciated repeatedly within a short time *chatters*. [`Measure`] counts both as the alarms of
//! a plant are annunciated. For each area it has a ring of counters, one for each of the last 600 seconds, with their total, and
//! for each alarm its last three moments.
//!
//! | call | what it does |
//! |---|---|
//! | `annunciated(alarm)` | one more annunciation of the alarm's area, and a moment of the alarm |
//! | `advance(now)` | the clock moves; what is 600 seconds old is forgotten |
//! | `settle()` | starts the flood of an area whose window is above 10, and ends it if the window is below 5; called after each action |
//! | `window(area)`, `flood(area)`, `age(area, age)` | the annunciations of an area within the last 600 seconds, whether there is a flood, and the annunciations of one age |
//! | `moments(alarm)`, `chattering(out)` | the last three moments of an alarm; the alarms with three annunciations within the last minute |
//!
//! What is used above: a measure is one value, its `Metrics` (specs/Metrics), and each call says what it makes of them. That they
//! are those counted from scratch, from the list of all annunciations, after any calls, is the law [`laws::calls_are_counted`].
//! The laws next to it say that they are those of the plant, after any actions.
//!
//! Only `new`, `of` and `copy` take memory: each vector of a measure has room for what it holds and no more, before each call and
//! after it. The cost of `annunciated`, `window`, `flood`, `age` and `moments` doesn't depend on how many annunciations or alarms
//! there are. That of `settle` grows with the areas, that of `chattering` with the alarms. `advance` clears at most 600 places of
//! each area, however far the clock moves. Not covered: the cost.
//!
//! Proved:
//! - ages, windows, floods, last moments, chattering are counted from all annunciations, while no window reaches 2^64 (by
//!   `Measure`, `laws::calls_are_counted`, `laws::metrics_go_along`)
#![tactic(auto)]

mod chatter;
mod exact;
pub mod laws;
mod measure;
mod ring;
mod rings;

pub use measure::Measure;
