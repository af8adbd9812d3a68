//! Table files: TOML texts that list the alarms of a plant and the size of its device.
//!
//! ```text
//! let text = fs::read("plant.toml")?;
//! let (size, table) = table_of(alloc, &text)?;
//! let alarms = table.alarms();
//! ```
//!
//! The file has `size` (bytes of the device, 1 to 2^40), `areas` (1 to 64) and an array of tables `alarm`, 1 to 16,384 of them.
//! An alarm's number is its place.
//!
//! | key of an alarm | type | if it is missing |
//! |---|---|---|
//! | `kind` | `"high"`, `"low"`, `"discrete"` | refused |
//! | `setpoint`, `priority`, `area` | integer | refused |
//! | `deadband`, `max_shelve` | integer | 0 |
//! | `latching` | boolean | false |
//! | `tag` | string | refused |
//! | `text` | string | empty |
//!
//! Other keys are refused. Of several faults the first counts: the file's own keys, then the number of the alarms, then
//! the alarms by number. In each of these, the unknown keys come first, by their bytes, and then the known keys as
//! listed above.
//!
//! What is used above: [`table_of`] gives what the tree that `toml` reads in the text says, or the first thing that is
//! wrong with it.
//!
//! Proved:
//! - a table file's tree, with defaults, or its first fault; "no TOML" only if TOML's library refuses it for a cause other
//!   than memory (by `table_of`)
#![tactic(auto)]

mod alarm;
mod keys;
mod load_fault;
mod loading;
mod section;
mod values;

pub use load_fault::LoadFault;
pub use loading::table_of;
