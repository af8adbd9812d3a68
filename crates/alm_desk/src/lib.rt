//! Answers the request lines of all slots in one thread, over a plant in memory or on a device.
//!
//! ```text
//! let mut desk = desk_of::<Plant>(alloc, &worked_table(alloc)?)?;
//! let mut writer = CountedWriter::new(stdout);
//! desk.feed(slot, b"1 ACK 7\n", &mut writer)?;
//! desk_run(&mut CountedReader::new(stdin), &mut writer, &mut desk)?;
//! ```
//!
//! A [`LocalDesk`] answers the lines of all 18 slots, each before the next, over a [`Backend`]: a plant that judges
//! actions and answers queries. It reports what happened since it began, of the last 65,536 actions. After the backend's storage has stopped, the line that met the stop and every later
//! request are answered `NO 15`, which doesn't say what became of an action.
//!
//! [`desk_run`] reads lines of the desk: a slot (0 to 17), one space and a request line. Each reply follows its slot
//! and a space. A line that has more than 131 bytes, its LF included, prints `? NO 14`; one with another beginning, `?
//! NO 13`. What follows the last LF is dropped.
//!
//! What is used above: the output of [`LocalDesk::feed`], over all calls and slots, consists of the replies to the
//! lines, sorted by their ends. Each line is judged on the plant of all earlier actions. The output depends only on the
//! bytes and not on how they were cut: [`feed_all`] says so of any sequence of pieces. [`desk_run`] writes what the
//! desk prints for what it read. A fault comes only if the writer failed, which a [`CountedWriter`] counts, or the
//! reader failed or reported no end in 2^32 reads.
//!
//! Not covered: that a reader ever ends; how much of the last reply was written if the writer failed.
//!
//! Proved:
//! - what is written is the replies in the order of the lines' ends, each by the plant that the earlier actions left (by
//!   `LocalDesk::feed`, `feed_all`)
//! - a write fault comes only if the counted writer counted one: lines before are answered, a prefix of the next reply is
//!   written, the desk is closed (by `LocalDesk::feed`)
//! - storage stops only if it counts a failure, so never in memory; the plants that it may hold are reported with the
//!   desk's plant (by `Backend`)
//! - what the desk writes is its function of what it read; it fails only if reader or writer counted a failure, after 2^32
//!   reads, or if it was closed (by `desk_run`, `CountedReader`)
//! - the worked table (by `worked_table`)
#![tactic(auto)]

mod answering;
mod backend;
mod counted_reader;
mod counted_writer;
mod desk_fault;
mod desk_line;
mod hindrance;
mod judged_request;
pub mod laws;
mod local_desk;
mod memory_backend;
mod memory_desk;
mod notebook;
mod piece;
mod piece_feeding;
mod read_outcome;
mod run_fault;
mod running;
mod slot_feeding;
mod stopped;
mod worked;
mod write_failed;

pub use backend::Backend;
pub use counted_reader::CountedReader;
pub use counted_writer::CountedWriter;
pub use desk_fault::DeskFault;
pub use hindrance::Hindrance;
pub use judged_request::JudgedRequest;
pub use local_desk::LocalDesk;
pub use memory_desk::desk_of;
pub use piece::Piece;
pub use piece_feeding::feed_all;
pub use read_outcome::ReadOutcome;
pub use run_fault::RunFault;
pub use running::desk_run;
pub use stopped::Stopped;
pub use worked::worked_table;
pub use write_failed::WriteFailed;
