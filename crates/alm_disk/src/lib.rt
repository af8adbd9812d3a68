//! The device under the store: what a write, a sync and a crash do to it, and devices in memory that do so.
//!
//! ```text
//! let mut disk = MemDisk::new(alloc, bytes, calls)?;
//! disk.write_at(0, b"text")?; disk.sync()?;
//! let disk = disk.crash(&mut chooser);
//! ```
//!
//! A device has a fixed size in bytes. Each place holds the byte that reads there, and is stable or *pending*: pending
//! from the write that touched it until the next successful sync. What a crash may leave is an *image*: the bytes as
//! they read at every stable place, and any bytes at the pending ones.
//!
//! | call | done | failed |
//! |---|---|---|
//! | read | returns the bytes | the device is unchanged |
//! | write | its bytes read from then on, its range is pending | its range is pending, and may read as anything |
//! | sync | no place is pending; reads as before, after a failed write or sync as one of the images before | no image is new |
//! | crash | one image, no place is pending | |
//!
//! A crash within a write is one after it, and a crash within a sync one before it.
//!
//! | device | fails |
//! |---|---|
//! | [`MemDisk`] | a call for which its record has no room |
//! | [`FuseDisk`] | every call after a number of calls, until it crashes |
//! | [`OnceDisk`] | one call |
//! | [`HeldDisk`] | a sync that its [`Hold`] doesn't let begin |
//!
//! What is used above: the clauses of [`Disk`], and what follows from them of every device. Each of these [`laws`] is
//! the contract of a function that does nothing, and a lemma in `proofs/Images.antt`.
//!
//! The clauses hold for an *honest* device: one whose answers so far are those of the model. Nobody knows that beforehand, so what
//! a read gives may end it, and nothing else does. A read that lies leaves the device as it was. What this is of a file alm_file
//! says. Not covered: finding out that a device was damaged, and checksums. Also not covered is how often a hold is asked, since
//! asking leaves it unchanged: a test counts.
//!
//! Proved:
//! - what each call and a crash do to a device, proved of each one in memory; a fault is reported only if the device failed
//!   (by `Disk`, `Crashable::crash`, `MemDisk`, `FuseDisk`, `OnceDisk`, `HeldDisk`, `laws`)
#![tactic(auto)]

mod as_read;
mod call;
mod cells;
mod chooser;
mod crashable;
mod disk;
mod disk_fault;
mod free;
mod fuse_disk;
mod held_disk;
mod hold;
pub mod laws;
mod mem_disk;
mod once_disk;

pub use as_read::AsRead;
pub use call::Call;
pub use chooser::Chooser;
pub use crashable::Crashable;
pub use disk::Disk;
pub use disk_fault::DiskFault;
pub use free::Free;
pub use fuse_disk::FuseDisk;
pub use held_disk::HeldDisk;
pub use hold::Hold;
pub use mem_disk::MemDisk;
pub use once_disk::OnceDisk;
