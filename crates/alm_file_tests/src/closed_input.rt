//! A process whose standard input is closed.

use alm_file::{FileDisk, Unknown, fill_streams};
use anyhow::Result;
use os::FromRawFd;
use std::io::Read;
use std::os::fd::OwnedFd;

/// The path of the device.
const PATH: &str = "closed_input.device";

/// How many bytes it has.
const SIZE: u64 = 4_096;

/// Whether the device is opened, to be written or to be read.
fn opens(rt: &HostRuntime) -> (bool, bool) {
    let is_written = FileDisk::open(rt, PATH, Unknown).is_ok();
    let is_read = FileDisk::open_to_read(rt, PATH, Unknown).is_ok();
    (is_written, is_read)
}

/// A folder, a system's device and the program's own streams, which are no devices.
const NO_DEVICES: [&str; 4] = [".", "/dev/null", "/dev/stdin", "/proc/self/fd/1"];

/// Anything but a regular file is refused. So is the device if it would be standard input. With the null device there it is
/// opened, and standard input ends immediately.
#[test]
fn no_device_becomes_standard_input(rt: HostRuntime) -> Result<()> {
    for path in NO_DEVICES {
        assert!(rt; FileDisk::open(&rt, path, Unknown).is_err(), "{path}");
    }
    drop(FileDisk::make(&rt, PATH, SIZE, SIZE, Unknown)?);
    // SAFETY: no other code closes standard input, and none reads it before it is open again.
    drop(unsafe { OwnedFd::from_raw_fd(0) });
    assert_eq!(rt; opens(&rt), (false, false));
    fill_streams(&rt)?;
    assert_eq!(rt; opens(&rt), (true, true));
    let mut byte = [0u8; 1];
    assert_eq!(rt; rt.stdin().read(&mut byte)?, 0);
    Ok(())
}
