//! The limit on the size of the files that a process writes.

use libc::types::rlimit;
use std::io;

/// The number of that limit.
const RLIMIT_FSIZE: i32 = 1;

/// Refuses a file of more bytes than the process may write to: the system would end the process by a signal.
pub fn refuse_beyond_limit(size: u64) -> io::Result<()> {
    let mut limit = rlimit {
        rlim_cur: 0,
        rlim_max: 0,
    };
    if libc::getrlimit(RLIMIT_FSIZE, &mut limit) < 0 {
        return Err(io::Error::from_raw_os_error(os::errno()));
    }
    if size > limit.rlim_cur {
        return Err(io::Error::from_raw_os_error(libc::EFBIG));
    }
    Ok(())
}
