//! Prints a plant: as text to read, and as a table file.
//!
//! ```text
//! let keeper = open_store(alloc, disk)?;
//! show_plant(keeper.stored(), epoch, &mut answer, &mut writer)?;
//! export_plant(alloc, keeper.stored(), size, &mut writer)?;
//! // and table_of(alloc, &text) is that size and that table again
//! ```
//!
//! [`show_plant`] prints the clock, the count and the epoch, a line for each alarm, the lists of the priorities, and the list
//! and the flood flag of each area.
//!
//! [`export_plant`] prints the device's size, the areas, and each alarm with the priority and the setpoint in force. It
//! prints each key, also one that the table file left out; the keys of an alarm are in alphabetical order (only tested,
//! by alm_program_tests). The whole text is made in memory before any of it is written: some 5 KB an alarm.
//!
//! What is used above: [`show_plant`] writes a plant's text, and a prefix of it if the writer fails or memory runs out.
//! [`export_plant`] writes a text that `alm_table` reads as that size and that table, or nothing if memory runs out, or a prefix
//! of the text if the writer fails.
//!
//! Not covered: comments of a table file, and the order of its keys.
//!
//! Proved:
//! - the text that is shown of a plant (by `show_plant`)
//! - a plant is written as a table file of its size (the nearest that a file may name) and table; a prefix if the writer
//!   fails (by `export_plant`)
#![tactic(auto)]

mod alarm_tree;
mod exporting;
mod plant_tree;
mod printed;
mod show_fault;
mod showing;
mod tree;

pub use exporting::export_plant;
pub use show_fault::ShowFault;
pub use showing::show_plant;
