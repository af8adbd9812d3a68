//! The store of a device: it keeps a plant, one device call at a time. A loss of power at any moment leaves what was stored or
//! what was being stored, whole.
//!
//! ```text
//! let disk = format(alloc, disk, &table)?;
//! let mut keeper = open_store(alloc, disk)?; keeper.begin(&batch)?;
//! while let Progress::More = keeper.advance() {}
//! ```
//!
//! A device is formatted once ([`format`]) and opened as a [`Keeper`] ([`open_store`]). A keeper stores the accepted
//! actions of a batch ([`Keeper::begin`]: a *commit*), or copies its plant to the other half of the device
//! ([`Keeper::begin_checkpoint`]). Both only begin the work; each [`Keeper::advance`] then makes its next device call.
//!
//! | stage of a work | its call | at any moment of it a crash leaves |
//! |---|---|---|
//! | `Close` (only in a checkpoint, and only if the other half's gate reads open) | writes that gate closed | what is stored |
//! | `CloseSync` | sync | what is stored |
//! | `Body` | writes what the gate guards, the next gate closed: a frame, or one piece of a checkpoint's run | what is stored |
//! | `BodySync` | sync | what is stored |
//! | `Gate` | writes the gate open, one byte | what is stored, or what is begun |
//! | `TurnSync` (only in a checkpoint of version 03) | sync | what is stored, or what is begun |
//! | `Retire` (after it) | writes the gate of the half that stood closed | what is begun |
//! | `GateSync` | sync | what is stored, or what is begun |
//! | then `Idle`, or `Body` of an open checkpoint | | what was begun: now it is stored |
//! | `Stopped`, if a call failed | none until the device is opened again | what is stored, or what was begun |
//!
//! A checkpoint is open from its begin to its end. What goes out is its *run*, the other half after its gate. The run has the
//! head in the next epoch, the image as it was copied, the frames committed since, and a closed gate. It goes out in pieces of at
//! most 65,536 bytes, and between two of them a commit may begin ([`Keeper::paused`]). The frame of that commit is copied into
//! the run as well, with its gate open. The last piece is the one that includes the closed gate. No commit comes between it and
//! the checkpoint's end.
//!
//! A half is of version 01, 02 or 03, and a device has a header of one of them ([`format_as`]). A half of version 01 holds neither
//! PRIO nor SETP. A checkpoint makes a half of version 03 if the one that stands is of version 03, else one of version 02. So if
//! [`Keeper::takes`] is false because of an action's kind, a checkpoint comes first.
//!
//! A gate is one byte. That of a half is open if it is 0xA5, and so is that of a frame, which in version 03 is open if it isn't
//! 0x5A. A commit writes the body of a frame after the first closed gate of the half that stands; a checkpoint writes its run
//! after the gate of the other half.
//!
//! In version 03 the half that stood is shut as a checkpoint ends, so that no damaged gate lets it stand again in place of
//! later commits. Where a loss of power came before that, `takes` is false until another checkpoint has shut it.
//!
//! The definitions are in specs/:
//!
//! | file | what it defines |
//! |---|---|
//! | Keeper | a keeper as its callers see it: stage, work, what is stored and what is begun; and what each call makes of it |
//! | Stages | the stages, and which bytes may be left at each |
//! | AsStore, StoreLaws | what a keeper is as a [`Store`](alm_store::Store), and why that meets a store's laws |
//! | Batch | the accepted actions of a batch, each with the slot that asked, and how they are tried one after the other |
//! | Formatting, Moments | what formatting makes: ten device calls in their order, and what a crash leaves at any moment of each |
//! | Opening | what opening answers to the bytes |
//! | Trail, Saying | which actions a device says since its image, each with who asked; and which it says after a crash |
//! | Calls | which device call is that of a stage, and which are those of an opening |
//! | Stand, Resting, Piecewise, Phases, Keeping | what a keeper knows of its device, of which two laws speak |
//!
//! What is used above: `any_moment` of [`Keeper::advance`]. It is stated by the relation `Stands` between bytes, an epoch and a
//! plant, which alm_checkpoint defines for every reader of a device. [`Keeper::images`] says the same between calls. After `Done`
//! the stored plant is the fold with the batch.
//!
//! What is required of a device: that it is honest, as alm_disk defines it; of an opening's plant and fault, that it is so once the
//! last byte was read. For every device these hold: safety, the answers of `begin`, and that `Failed` and `Disk` mean a failure of
//! the device in that very call. Only formatting and `open_store` take memory: the room of each vector of a book never changes. Not
//! covered: that memory suffices, which tests show; time; and that damaged bytes are found out (versions 01 and 02 have no checksum).
//!
//! Proved:
//! - a keeper is a store as alm_store asks (by `Keeper`)
//! - a crash at any moment of a commit leaves what is stored, or, from the third call on, that or what is begun (by
//!   `Keeper::advance`, `images`)
//! - a crash at any moment of a checkpoint leaves what is stored; from its last call but one on, in either epoch (by
//!   `Keeper::advance`, `images`)
//! - what a crash leaves says who asked: in a commit the list of before, or that and its actions; in a checkpoint that list or
//!   its end (by `Keeper::advance`, `images`)
//! - each `advance` makes one device call, and which is said with its bytes: of a commit its frame, with the slot that asked each
//!   action. A checkpoint goes out in pieces of at most 65,536 bytes, with commits between (by `Keeper::advance`, `begin`,
//!   `begin_checkpoint`, `paused`, `written_since`, `mark`)
//! - a begin is refused exactly as its contract says; `takes` is true exactly if a batch's frame fits and the half may hold
//!   its kinds (by `begin`, `begin_checkpoint`, `takes`, `used`)
//! - opening returns the plant, epoch and room that the bytes hold after its sync, or exactly their fault; else Disk, if it
//!   failed, or out of memory (by `open_store`)
//! - opening writes nothing: a sync and five reads. A refused one made the first of them, at the places of some layout, not
//!   surely of the device's own (by `open_store`)
//! - formatting makes its ten calls, with what a crash leaves at any moment of each; then a table's new plant, or a given one,
//!   stands in epoch 1 (by `format`, `format_as`, `format_plant`)
#![tactic(auto)]

mod advancing;
mod as_store;
mod bearing;
mod book;
mod filling;
mod format_fault;
mod formatting;
mod frame;
mod gated;
mod half_text;
mod keeper;
pub mod laws;
mod open_fault;
mod opening;
mod stage;
mod store_format;
mod trying;

pub use alm_store::{OpenFault, Phase, Progress, Refused};
pub use format_fault::FormatFault;
pub use keeper::{Keeper, open_store};
pub use stage::Stage;
pub use store_format::{format, format_as, format_plant};
