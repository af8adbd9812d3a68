//! The texts on the device: actions, frames and images. Numbers are big-endian; the layouts are this project's own.
//!
//! ```text
//! write_action(&action, &mut text);
//! let len = read_frame(bytes, epoch, count, &mut actions, version)?;
//! let parts = read_image(alloc, bytes, rows, areas, count)?;
//! ```
//!
//! | text | bytes |
//! |---|---|
//! | action | kind 1, zeros 3, alarm 4, argument 8: CLOCK 1, VALUE 2, ACK 3, RESET 4, SHELVE 5, UNSHELVE 6, OOS 7, DESIGN 8, PRIO 9, SETP 10 |
//! | the same in a frame of version 03 | kind 1, who asked 1, zeros 2, alarm 4, argument 8 |
//! | frame, after its gate | epoch 8, number of its first action 8, count 2, the actions, the next gate 1 |
//! | the same in version 03 | epoch 8, the number's lower half 4, 255 times the count 2, checksum 4, the actions, the next gate 1 |
//! | image | clock 8, next stamp 8; each area: flood 1, ages 600 times 8; each alarm 182 |
//! | alarm in an image, attributes | kind, priority, area, latching 1 each, setpoint 8, deadband 8, max_shelve 4, tag 1 + 32, text 1 + 80 |
//! | .. then its state | active, core, flags, moments kept 1 each, deadline 8, stamp 8, moments 3 times 8 |
//!
//! An image is that of a plant which keeps the rules of every plant (`KeepsRules` of `alm_model`). [`read_image`] returns the
//! parts of that plant, which `build` takes, and [`write_image`] writes it from any plant.
//!
//! What is used above: what is read is a text, whole; a text is read as what was written. Of a damaged text the place of one
//! field is returned: the first whose value is against a rule, alone or together with the fields read earlier. A value has one
//! text, and no text is a prefix of another's. In version 01 there are only the kinds 1 to 8 ([`Version::bears`]). In version 03
//! a frame has the checksum of the bytes before it and of its actions, and each of these says which slot asked ([`Asker`]). It is then damaged if any one byte of it is changed. All
//! else is the same in all versions. Not covered: whether an action that is read is admitted. Only `read_image` takes memory: its
//! `OutOfMemory` says nothing about the bytes.
//!
//! Proved:
//! - texts of actions, frames and images are read as they were written, any plant's too; damage is reported at the first
//!   field that breaks a rule (by `read_action`, `read_frame`, `read_image`, `write_image`, `laws`)
//! - a frame of version 03 of which one byte was changed is damaged (by `laws`)
#![tactic(auto)]

mod action;
mod alarm_flags;
mod alarm_lists;
mod alarm_parts;
mod alarm_writer;
mod area_lists;
mod area_parts;
mod area_writer;
mod asked;
mod asker;
mod bytes_left;
mod damage;
pub mod fields;
mod fixed;
mod frame;
mod frame_head;
mod frame_writer;
mod image_fault;
mod image_reader;
mod image_writer;
pub mod laws;
mod state;
mod stop;
mod sums;
mod version;

pub use action::{ACTION_LEN, asked_of, read_action, write_action};
pub use asked::Asked;
pub use asker::Asker;
pub use bytes_left::BytesLeft;
pub use damage::Damage;
pub use frame::read_frame;
pub use frame_head::read_head;
pub use frame_writer::write_frame_body;
pub use image_fault::ImageFault;
pub use image_reader::read_image;
pub use image_writer::{image_len, write_image};
pub use version::{OPEN_GATE, Version};
