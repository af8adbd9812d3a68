//! A file as a device.
//!
//! ```text
//! fill_streams(rt)?;
//! let mut disk = FileDisk::open(rt, "plant.device", Unknown)?;
//! disk.write_at(0, b"text")?; disk.sync()?;
//! ```
//!
//! | call | does |
//! |---|---|
//! | [`fill_streams`] | opens the null device at each standard stream that is closed |
//! | [`FileDisk::open`] | opens an existing file with its present length, once its bytes and its names are on the disk |
//! | [`FileDisk::open_to_read`] | the same, read-only |
//! | [`FileDisk::make`] | creates a file of a size if there is none, else cuts or lengthens it, and takes room for it on the disk |
//! | `read_at`, `write_at` | read and write at a place (`pread`, `pwrite`): all bytes, or an error |
//! | `sync` | waits until the file's bytes are on the disk (`fdatasync`); fails if no path names the file any more, or its size has changed |
//! | [`PlacedDisk::open`] | the same file, whose `sync` also fails if its own path names another file |
//! | [`ScrubFile::open`], `read` | the same file once more, with no lock; reads it in pieces while the device is used |
//! | [`FileLock::release`] | lets other processes have the file |
//! | [`Successor::make`] | makes a new file next to a device's, with its owner and its permissions |
//! | [`Successor::take_place`] | gives it the name of the device's file (`rename`), and waits until that is on the disk |
//!
//! A process that has a device's file open holds a lock on it, so no other process of this program can have it open
//! too. Processes that only read it share their lock.
//!
//! After a failed sync Linux keeps bytes as written that the disk never took. So the kernel is made to drop its cache of the file
//! (`posix_fadvise`). This is done as the file is opened, before the first sync and the first read, and again after each failed
//! sync. Every byte that is read is on the disk.
//!
//! A [`FileDisk`]'s descriptor isn't one of the standard streams', by its type, and it is opened only if no standard stream is the
//! same file. So output that is printed can't overwrite a device. It is a regular file: a folder, a pipe, a socket and a device of
//! the system are refused.
//!
//! What is used above: a file is a [`Disk`](alm_disk::Disk) over the *record* of its calls and their answers, which contracts alone
//! see. Suppose the bytes that it held as it was opened ([`Start`]). By them and the record it reads as it does, some places are
//! pending, and it is *honest* if each read gave what it then read as. Each call adds its own event to the record, and nothing else
//! does. So what is proved of every device is said of the program's own file, under that premise on its answers: no proof can know
//! beforehand what a file will give.
//!
//! Checked by reading, and by `tests/lib/calls.py`: that [`read`](recorded_file::RecordedFile::read), `write` and `sync` of a
//! `RecordedFile` make the call which they note, three bodies in one file. And what an opening does before the record begins: the
//! kernel forgets its cache of the file, the file is synced with its names, and `make` takes its room.
//!
//! Proved:
//! - a file is a device by the record of its calls: what it reads as, what is pending, and of which answers it is honest
//!   (by `FileDisk`, `PlacedDisk`)
//! - it begins as the bytes that are supposed of it, settled, with an empty record (by `FileDisk::open`, `open_to_read`, `make`,
//!   `PlacedDisk::open`)
//! - if what an opening read was what the file held, the run is honest, however its later calls end (by
//!   `laws::true_reads_make_an_honest_run`)
//! - size and count of failures; the descriptor is no standard stream's (by `FileDisk`, `PlacedDisk`)
#![tactic(auto)]

mod disk_cache;
mod file_disk;
mod file_fault;
mod file_lock;
pub mod laws;
mod limit;
mod names;
mod pause_between;
mod place;
mod placed_disk;
mod record;
mod recorded_file;
mod scrub_file;
mod scrub_read;
mod start;
mod streams;
mod successor;

pub use file_disk::FileDisk;
pub use file_fault::FileFault;
pub use file_lock::FileLock;
pub use pause_between::PauseBetween;
pub use placed_disk::PlacedDisk;
pub use scrub_file::ScrubFile;
pub use scrub_read::ScrubRead;
pub use start::{Start, Unknown};
pub use streams::fill_streams;
pub use successor::Successor;
