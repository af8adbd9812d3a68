//! What takes a file's room on the disk, and what makes the kernel drop its cache of it.

use std::fs::File;
use std::io::{self, ErrorKind};
use std::os::fd::AsRawFd;
use std::os::unix::fs::FileExt;

/// How many bytes are read and written in one call.
const PIECE: usize = 16_384;

/// Makes the kernel drop its cache of a file, except for what isn't written yet: what is read next comes from the disk. After a
/// failed sync the kernel keeps bytes that the disk never took, returns them to readers, and reports the next sync as successful.
pub fn forget(file: &File) {
    let _advised = libc::posix_fadvise(file.as_raw_fd(), 0, 0, libc::POSIX_FADV_DONTNEED);
}

/// Whether the file can't be synced at all: a read-only file system has no unwritten bytes, and one of the kernel's own has no
/// disk.
pub fn has_no_sync(error: &io::Error) -> bool {
    matches!(
        error.kind(),
        ErrorKind::InvalidInput | ErrorKind::ReadOnlyFilesystem
    )
}

/// Rewrites the bytes of a file up to a place, as they read. So each of them has its place on the disk, and a later write can't
/// meet a full one.
pub fn take_room(file: &File, used: u64) -> io::Result<()> {
    let mut piece = [0u8; PIECE];
    for at in (0..used).step_by(PIECE) {
        let length = (used - at).min(PIECE as u64) as usize;
        file.read_exact_at(&mut piece[..length], at)?;
        file.write_all_at(&piece[..length], at)?;
    }
    Ok(())
}
