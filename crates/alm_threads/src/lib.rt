//! The server in threads: its parts, each in a thread of its own, and a run of them all, from an opened store to its report.
//!
//! ```text
//! let parts = parts_of(rt, alloc, new, store, slots, &hold)?;
//! let end = run_threads(rt, alloc, parts, &hold, sources)?;
//! let count = end.report.keeper.count();
//! ```
//!
//! | call | does |
//! |---|---|
//! | [`parts_of`] | rings, board, looks and the sequencer's plant for some slots, over an idle store |
//! | [`run_threads`] | a thread for each source and one for the sequencer, the flusher in the caller's; joins them and closes the slots |
//! | [`run_with_bells`] | the same, with a bell of the caller's own for each slot, such as one that wakes a poll, and a hint by which it asks for a checkpoint |
//!
//! | thread | runs | ends |
//! |---|---|---|
//! | of each slot | [`run_source`]: one turn of its [`Source`] after another | after a turn that returns [`Go::End`], or before one if all are to stop |
//! | the sequencer's | [`run_sequencer`]: takes requests from each slot in turn, 14 in a row at most, and seals batches | all sources had ended, a pass took nothing, and the open batch is empty; or all are to stop |
//! | the flusher's | [`flush`]: commits, publishes and releases batches, and wakes the slots | no batch will be sealed and a fetch gave none; or there is a [`StopCause`] |
//!
//! When they seal, sleep and wake each other is alm_wake's, and no contract here rests on it.
//!
//! What is used above is the contract of a run. All that was taken of the slots is one legal history, as of a single thread, from
//! the plant that was stored at first. What the store holds at the end is a prefix of it, and what was released is a prefix of
//! that. The entries of a slot are the requests that its console sent, in order, as far as they were taken. The receipts that the
//! console received have their serials and verdicts. Each slot's report, in the order of the slots, counts these.
//! [`Storage::Whole`] is returned exactly if the store hasn't stopped and no request or receipt is left. At each moment of the
//! run whatever a crash leaves of an honest device encodes a prefix of what was accepted by then. The prefix contains all that
//! may be reported by then ([`RecordedFlusher`]). The report has the history of these moments, and a moment is in it before
//! anything is published by it. So each receipt and each look says of itself that what it reports stays on the device, whether
//! the run ever returns or not.
//!
//! The sources come back too ([`RunEnd`]). Turns of a source, one after another, led from its new console to the one that it ended
//! with. Nothing else sent or received there.
//!
//! A run that isn't whole has a [`StopCause`]. A failed step of the store is one only if the device failed, or in the last epoch.
//!
//! How that is had: each thread returns the ends that it was given, the sequencer's in its sequencer. So the caller that joins
//! them all has both ends of each ring again. It finishes what is left there ([`finish`]), until all is answered or the flusher
//! has a cause, and closes the slots. If the threads ended by themselves nothing is left.
//!
//! Not covered: that a run or a thread ever ends, that a request is ever answered, and time. If the threads can't be started,
//! [`run_with_bells`] returns the store as it was.
//!
//! Proved:
//! - each thread returns the ends that it was given, at the join too; a source takes its turns at its own slot's console
//!   (by `run_source`, `start_all`, `join_all`, `start_sequencer`)
//! - **all that was sent and received at a console was so in turns of its source, which comes back with the report** (by
//!   `run_source`, `join_all`, `run_with_bells`)
//! - what was taken and sealed is one legal history; what was stored a prefix of what was fetched, what was released a
//!   prefix of that (by `sequence`, `end_run`)
//! - honest device, at the end: each image holds what is stored, or that with the one batch whose commit wasn't done (by
//!   `close_flusher`)
//! - before and after each device call of the flusher's thread each image of an honest device holds a prefix of what was
//!   fetched by then (by `close_flusher`)
//! - the last moment is the one that is now; a moment comes before a publish, with all that it shows (by the type
//!   `RecordedFlusher`, `publish`)
//! - of a run that ended: one legal history of all that was taken; what is stored is a prefix of it, what was released a
//!   prefix of that (by `parts_of`, `run_threads`, `run_with_bells`)
//! - **that history answers each console: its slot's entries are the requests that it sent, in order; its receipts have their
//!   serials and verdicts** (by `run_with_bells`)
//! - **single calls led from the opened device to the report's. At each state each image of an honest one holds a prefix of
//!   what was accepted by then** (by `run_with_bells`)
//! - **that prefix reaches the moment's floor, at the end every number released. The report has the history of these
//!   moments** (by `run_with_bells`, the type `RunReport`)
//! - no receipt or look has more than the floor of its moments says (by the types `Durable`, `RecordedFlusher`)
//! - reports stand in the order of slots; whole is said exactly if the store goes on and all that was sent was taken and
//!   answered (by `run_with_bells`, the type `RunReport`)
//! - **a run that isn't whole has its cause: a failed step of the store, or 1,000 refused publishes in a row** (by `finish`,
//!   `RecordedFlusher::cause`, the type `RunReport`)
//! - a step of the store fails only if the device failed, or in the last epoch (by `run_with_bells`)
//! - a run that can't be started returns its store as it was (by `run_with_bells`)
//! - any number of runs, each opened on what a crash at any moment left of the one before, keep all actions that were
//!   reported, run after run (by `laws::what_was_told_outlasts_outages`)
#![tactic(auto)]

mod closes;
mod closing;
mod closing_board;
mod ending;
mod ends;
mod finishing;
mod flusher_parts;
mod flushing;
mod go;
mod joined_ends;
mod joined_threads;
pub mod laws;
mod middle;
mod not_started;
mod opening;
mod parts;
mod recorded_flusher;
mod report;
mod reporting;
mod rings;
mod run_end;
mod running;
mod sequencer_back;
mod sequencing;
mod slot_parts;
mod slots;
mod source;
mod source_back;
mod source_end;
mod source_thread;
mod start;
mod start_fault;
mod starting;
mod stop_cause;
mod storage;
mod watched_look;

pub use closes::Closes;
pub use closing_board::ClosingBoard;
pub use ending::{close_flusher, end_run};
pub use ends::Ends;
pub use finishing::finish;
pub use flusher_parts::FlusherParts;
pub use flushing::flush;
pub use go::Go;
pub use joined_ends::JoinedEnds;
pub use joined_threads::JoinedThreads;
pub use middle::Middle;
pub use not_started::NotStarted;
pub use opening::parts_of;
pub use parts::Parts;
pub use recorded_flusher::RecordedFlusher;
pub use report::RunReport;
pub use rings::Rings;
pub use run_end::RunEnd;
pub use running::{run_threads, run_with_bells};
pub use sequencer_back::SequencerBack;
pub use sequencing::sequence;
pub use slot_parts::SlotParts;
pub use source::Source;
pub use source_back::SourceBack;
pub use source_end::SourceEnd;
pub use source_thread::run_source;
pub use start::{join_all, start_all, start_one};
pub use start_fault::StartFault;
pub use starting::{run_sequencer, start_sequencer};
pub use stop_cause::StopCause;
pub use storage::Storage;
pub use watched_look::WatchedLook;
