//! A device's file that is taken away, and its lock.

use alm_disk::Disk;
use alm_file::{FileDisk, PlacedDisk, Unknown};
use anyhow::Result;
use std::fs::{self, OpenOptions};
use std::os::unix::fs::MetadataExt;

/// How many bytes a device has.
const SIZE: u64 = 4_096;

/// Makes a device at a path.
fn make(rt: &HostRuntime, path: &str) -> Result<()> {
    drop(FileDisk::make(rt, path, SIZE, SIZE, Unknown)?);
    Ok(())
}

/// A sync fails while the path names no file, or another one, and is done while it names the file that is open.
#[test]
fn a_sync_asks_for_the_file_at_its_path(rt: HostRuntime) -> Result<()> {
    make(&rt, "placed.device")?;
    make(&rt, "other.device")?;
    let mut disk = PlacedDisk::open(&rt, "placed.device", Unknown)?;
    assert!(rt; disk.sync().is_ok());
    fs::rename(&rt, "placed.device", "away.device")?;
    assert!(rt; disk.sync().is_err());
    fs::rename(&rt, "away.device", "placed.device")?;
    assert!(rt; disk.sync().is_ok());
    fs::rename(&rt, "other.device", "placed.device")?;
    assert!(rt; disk.sync().is_err());
    Ok(())
}

/// A sync fails after the file gets another size, or has no name any more.
#[test]
fn a_sync_asks_for_a_file_with_its_size_and_a_name(rt: HostRuntime) -> Result<()> {
    make(&rt, "sized.device")?;
    let mut disk = FileDisk::open(&rt, "sized.device", Unknown)?;
    assert!(rt; disk.sync().is_ok());
    let file = OpenOptions::new().write(true).open(&rt, "sized.device")?;
    file.set_len(SIZE - 1)?;
    assert!(rt; disk.sync().is_err());
    file.set_len(SIZE)?;
    assert!(rt; disk.sync().is_ok());
    fs::remove_file(&rt, "sized.device")?;
    assert!(rt; disk.sync().is_err());
    Ok(())
}

/// Bytes that are written are read again, and the file is its owner's alone.
#[test]
fn what_is_written_is_read(rt: HostRuntime) -> Result<()> {
    make(&rt, "read.device")?;
    let mut disk = PlacedDisk::open(&rt, "read.device", Unknown)?;
    assert_eq!(rt; disk.size(), SIZE);
    let written = disk.write_at(7, b"bytes").is_ok() && disk.sync().is_ok();
    let mut bytes = [0u8; 5];
    let read = disk.read_at(7, &mut bytes).is_ok();
    assert!(rt; written && read && bytes == *b"bytes");
    assert_eq!(rt; fs::metadata(&rt, "read.device")?.mode() & 0o777, 0o600);
    Ok(())
}

/// A process that reads a device keeps others from writing it, until its lock is released.
#[test]
fn a_lock_is_released_before_its_device_ends(rt: HostRuntime) -> Result<()> {
    make(&rt, "locked.device")?;
    let disk = FileDisk::open_to_read(&rt, "locked.device", Unknown)?;
    let lock = disk.lock()?;
    assert!(rt; FileDisk::open(&rt, "locked.device", Unknown).is_err());
    lock.release();
    assert!(rt; FileDisk::open(&rt, "locked.device", Unknown).is_ok());
    drop(disk);
    Ok(())
}
