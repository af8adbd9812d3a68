//! The program: its words, its commands, and how it ends.
//!
//! ```text
//! if let Some(order) = run_words(rt)? {
//!     serve(order)?;
//! }
//! ```
//!
//! | words | do |
//! |---|---|
//! | `desk` | the worked table in memory, over standard input and output |
//! | `desk DEVICE` | the same, but over a device that is formatted |
//! | `format DEVICE TABLE [--version 02 or 03]` | makes the file of a device, and formats it for a table file; in version 02, if none is named |
//! | `upgrade DEVICE [--version 02 or 03]` | brings a device to a version, in a new file that takes its name; to version 03, if none is named |
//! | `show DEVICE` | prints the plant on a device |
//! | `export DEVICE` | prints the table of that plant as a table file, with the size, priorities and setpoints in force |
//! | `serve DEVICE --port P ..` | a [`ServeOrder`]: the slots of a formatted device at 18 ports |
//! | `serve DEVICE --sockets FOLDER ..` | the same at 18 Unix sockets in a folder |
//! | `.. --conns N` | for N connections in all |
//! | `.. --patience SECONDS` | how long a device call may take while clients are served |
//! | `.. --scrub SECONDS` | how much time lies between two scrubs of the device |
//! | `--help`, `--version` | prints its words, its version |
//!
//! Options may come in any order. P (1024 to 65518), N and the seconds of a scrub (below 2^32) and those of a patience (1 to 86400) are
//! decimal digits without a leading zero. Without `--conns` N is 0, without `--patience` there is no limit, and without `--scrub`, or
//! with 0, there is no scrub. Every other word is wrong usage.
//!
//! | fault | status | its line on standard error |
//! |---|---|---|
//! | of the words | 1 | `fault usage` |
//! | of the table | 2 | `fault toml`, `fault table <alarm or -> <key>`, `fault rows` |
//! | of the device's bytes or size | 2 | `fault too-small`, `fault unformatted`, `fault damaged <half> <at>` |
//! | of the device as it is opened or formatted | 3 | `fault disk` |
//! | of the device later | 3 | `fault stopped` |
//! | of memory, files, streams, ports or sockets | 3 | `fault memory`, `fault io`, `fault net` |
//!
//! What is used above: [`run_words`] returns the order to serve that some words ask for, with their device, endpoints,
//! number of connections, patience and scrubs. Not covered: that these are the process's own words. [`end_of`] ends with status 0 and no
//! line, or with the status and the line of the fault.
//!
//! Within: over any reader, writer and device, a desk, the print of a plant or of its table and a refused opening end by the fault
//! of their cause.
//!
//! Not covered: what a file or a standard stream gives and takes, and which file has which name. That the new device of an upgrade
//! takes the old one's name is tested.
//!
//! Proved:
//! - which words give which job, by what `clap` finds in them by its own contract; out of memory is no wrong usage (by
//!   `job_of`, `WordsFault`)
//! - a desk ends well only if its storage goes on, `stopped` only if not, `io` only if a failure was counted, it was closed
//!   or 2^32 reads gave no end (by `run_local`, `end_of`)
//! - a desk over a device's file goes on from the plant that the opening read. Each image of the device at its end holds a plant
//!   that the requests left (by `run_device_desk`)
//! - of a device that is upgraded nothing is written. The new one has its size, and is formatted in that version for the plant that
//!   its bytes encode (by `run_upgrade`)
//! - what is printed of a plant and of its table, or a prefix; `io` is reported exactly if the writer counted a failure (by
//!   `print_plant`, `print_table`)
//! - only a job to serve is answered by an order, with its device, place, connections, patience and scrubs. Which words the
//!   process was given, no contract says (by `run_job`, `run_between`)
//! - a device is refused by the cause of its opening; format takes the longest segment that fits, and refuses only if none
//!   does (by `open_to_print`, `open_stack`, `layout_for`)
#![tactic(auto)]

mod about;
mod desk;
mod desk_end;
mod desk_id;
mod device_stack;
mod endpoints;
mod exporting;
mod fault;
mod fault_line;
mod formatting;
mod io_faults;
mod job;
mod owned_endpoints;
mod program;
mod serve_order;
mod showing;
mod upgraded;
mod upgrading;
mod words;
mod words_fault;

pub use desk::{run_desk_over, run_device_desk};
pub use desk_end::DeskEnd;
pub use fault::Fault;
pub use fault_line::print_fault;
pub use io_faults::file_fault;
pub use owned_endpoints::OwnedEndpoints;
pub use program::{end_of, run_local, run_words};
pub use serve_order::ServeOrder;
pub use upgraded::Upgraded;
pub use upgrading::run_upgrade;
