//! The device as a whole: a header and two halves, each a head, an image and a segment of the journal.
//!
//! ```text
//! let layout = read_header(start, size)?;
//! let half = choose(&first, &second)?;
//! let Recovered { plant, .. } = recover::<Plant>(alloc, device)?;
//! ```
//!
//! | offset | bytes | field of the header |
//! |---|---|---|
//! | 0 | 1 | gate: open at A5 alone |
//! | 1 | 8 | `ALMSRV01`, `ALMSRV02` or `ALMSRV03`, by the version |
//! | 9 | 4 | rows, 1 to 16,384 |
//! | 13 | 2 | areas, 1 to 64 |
//! | 15 | 8 | length of a segment, L: 4,116 to 16,777,216 |
//!
//! | offset in a half | bytes | field |
//! |---|---|---|
//! | 0 | 1 | gate: open at A5 alone; what is closed in version 03 is 5A, eight bits from it |
//! | 1 | 8 | epoch |
//! | 9 | 8 | mark and count: the mark of the half's version in the first byte, 0, 2 or 253, then how many actions made the plant of the image, at most 2^48 |
//! | 17 | 8 | length of the image, I; in version 03 the checksums of image 4 and head 4 |
//! | 25 | I | image |
//! | 25 + I | L | segment |
//!
//! A half of version 01 holds only actions of kinds 1 to 8. Under a header of version 01 a half is of version 01 or 02, under one
//! of version 02 or 03 it is of the header's version.
//!
//! The first half begins at 23, the second after it. The half that stands is the one with an open gate; if both gates are open,
//! the one with the greater epoch. Its image is that of a plant, and the frames of its segment up to the first closed gate make
//! of it the plant that the device encodes. No other bytes are read, but in version 03 the head of the other half, if its gate is
//! open: both are whole. docs/develop/FORMAT.md gives each field's rule, and the place at which its fault is reported.
//!
//! The checksum of a head in version 03 is that of the header's bytes 1 to 22, the half's number (0 or 1), and the head's bytes
//! 1 to 20. So a change in any of these fields is found, and so is a half in the other one's place.
//!
//! The definitions are in specs/:
//!
//! | file | what it defines |
//! |---|---|
//! | Layouts | the places of everything, and the limits |
//! | Headers | the texts of header and head, field by field |
//! | Opening | which half stands, and the faults of header and heads, in their order |
//! | Standing | the relations `Stands device epoch plant` and `HasFault device fault` |
//! | Cut | a device cut into its fields, and what a frame, another half or a checkpoint make of it |
//! | Restoring | what a half holds, for the contracts of the calls |
//!
//! What is used above: [`recover`] returns the plant, epoch and half that the bytes of a device encode, or their first fault. By
//! the [`laws`] every list of bytes encodes exactly one plant in one epoch or has exactly one fault. Whatever follows the first
//! closed gate, or is in a half that doesn't stand, changes nothing.
//!
//! Only [`recover`] and [`Layout::restore`] take memory, and a fault `OutOfMemory` says nothing about the bytes. Not covered:
//! that memory suffices, which tests show. Versions 01 and 02 have no checksum: damage that breaks no rule is not found. In
//! version 03 a change of one byte is found but in gates. Of the half that stands a changed gate is reported if the other half's
//! is closed. A frame's open gate that becomes 5A ends the journal there, as if its commit had not ended; so do bytes that were there
//! earlier and come back whole.
//!
//! Proved:
//! - every list of bytes holds exactly one plant in one epoch, or has exactly one fault; header and heads are written as
//!   they are read (by `recover`, `Layout::restore`, `read_header`, `choose`, `laws`)
//! - what lies after the first closed gate or in the other half changes nothing; the longest segment that fits twice (by
//!   `laws`, `Layout::longest`)
//! - in version 03 a head or an image of which one byte was changed is damaged; whatever open gates the frames have, the
//!   same plant stands (by `laws`)
//! - a changed gate of the half that stands is damage if the other half's is closed (by `laws`)
#![tactic(auto)]

mod device_fault;
mod half;
mod half_gate;
mod half_head;
mod head_sum;
mod header;
mod heads;
pub mod laws;
mod layout;
mod longest;
mod no_choice;
mod recovering;
mod restore_fault;
mod restoring;
mod writing;

pub use device_fault::DeviceFault;
pub use half::Half;
pub use half_gate::{HalfGate, choose, read_half_gate};
pub use half_head::HalfHead;
pub use head_sum::image_sum;
pub use header::read_header;
pub use layout::{HEAD_LEN, HEADER_LEN, LONGEST_SEGMENT, Layout, SHORTEST_SEGMENT, device_name};
pub use no_choice::NoChoice;
pub use recovering::{Recovered, recover};
pub use restore_fault::RestoreFault;
