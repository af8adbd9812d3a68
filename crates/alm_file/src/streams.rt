//! The standard streams and their descriptors.

ghost use Rattle.std.specs.Prelude.{◌≡◌, pos, ◌<ℤ◌, true};
ghost use Rattle.std.specs.Fd.{file_raw_fd};

use crate::file_fault::FileFault;
use os::FromRawFd;
use std::fs::{self, File, Files, Metadata};
use std::io;
use std::os::fd::{AsRawFd, IntoRawFd, OwnedFd, RawFd};
use std::os::unix::fs::MetadataExt;

/// Standard error's descriptor, the last of the standard streams'.
const ERRORS: RawFd = 2;

/// The files of standard input, output and error, by their descriptors.
const STREAMS: [&str; 3] = ["/proc/self/fd/0", "/proc/self/fd/1", "/proc/self/fd/2"];

/// Whether a file's descriptor isn't one of the standard streams'.
pub fn is_apart(file: &File) -> bool
    ensures { result ≡ true → pos 2 <ℤ file_raw_fd file.now }
{
    file.as_raw_fd() > ERRORS
}

/// Opens the null device at each descriptor of a standard stream that is closed, to the end of the process. A new file gets the
/// lowest free descriptor, so from then on none gets a stream's. It is opened for reading: standard input then ends immediately,
/// and what is printed to the others fails. An error of the null device is returned.
pub fn fill_streams<R: Files<File = File>>(rt: &R) -> io::Result<()> {
    for _ in STREAMS {
        let null = File::open(rt, "/dev/null")?;
        if is_apart(&null) {
            return Ok(());
        }
        null.into_raw_fd();
    }
    Ok(())
}

/// Closes standard error permanently: what is printed there fails.
fn close_errors<R: Files<File = File>>(rt: &R) -> io::Result<()> {
    // SAFETY: it is open, since the system has reported its file, and code that prints there names it by its number.
    drop(unsafe { OwnedFd::from_raw_fd(ERRORS) });
    fill_streams(rt)
}

/// Whether a standard stream is this file. An error is returned if the stream is closed, or the system can't say.
fn is_stream<R: Files<File = File>>(rt: &R, stream: &str, file: &Metadata) -> io::Result<bool> {
    let stream = fs::metadata(rt, stream)?;
    Ok(stream.dev() == file.dev() && stream.ino() == file.ino())
}

/// Refuses a file that is a standard stream's. If it is standard error's, that is closed, since the line of a fault would be
/// written into the file.
pub fn refuse_streams<R: Files<File = File>>(rt: &R, file: &Metadata) -> Result<(), FileFault> {
    let [input, output, errors] = STREAMS;
    let is_errors = is_stream(rt, errors, file)?;
    if is_errors {
        close_errors(rt)?;
    }
    if is_errors || is_stream(rt, input, file)? || is_stream(rt, output, file)? {
        return Err(FileFault::Stream);
    }
    Ok(())
}
