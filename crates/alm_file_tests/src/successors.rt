//! A new file that takes the place of a device's file.

use alm_disk::Disk;
use alm_file::{FileDisk, Successor, Unknown};
use anyhow::Result;
use std::fs::{self, Permissions};
use std::os::unix::fs::{MetadataExt, PermissionsExt, symlink};

/// How many bytes the device and its successor have.
const SIZE: u64 = 4_096;

const LONGER: u64 = 8_192;

/// Makes a device at a path, which its group may read.
fn make(rt: &HostRuntime, path: &str) -> Result<FileDisk<Unknown>> {
    let disk = FileDisk::make(rt, path, SIZE, SIZE, Unknown)?;
    fs::set_permissions(rt, path, Permissions::from_mode(0o640))?;
    Ok(disk)
}

/// Whether a path names a file.
fn is_there(rt: &HostRuntime, path: &str) -> bool {
    fs::symlink_metadata(rt, path).is_ok()
}

/// By a link to the device: the link stays, and the new file has the device's permissions. What had the new file's name is gone.
#[test]
fn a_successor_takes_the_place_of_the_file(rt: HostRuntime) -> Result<()> {
    drop(make(&rt, "old.device")?);
    symlink(&rt, "old.device", "link.device")?;
    fs::write(&rt, "old.device.upgrade", b"a rest")?;
    let old = FileDisk::open(&rt, "link.device", Unknown)?;
    let successor = Successor::of(&rt, "link.device", &old)?;
    let mut new = successor.make(&rt, LONGER, LONGER, Unknown)?;
    assert!(rt; new.write_at(0, b"new").is_ok() && new.sync().is_ok());
    assert_eq!(rt; fs::metadata(&rt, "old.device")?.len(), SIZE);
    successor.take_place(&rt)?;
    assert!(rt; !is_there(&rt, "old.device.upgrade"));
    assert!(rt; fs::symlink_metadata(&rt, "link.device")?.is_symlink());
    let found = fs::metadata(&rt, "link.device")?;
    assert_eq!(rt; (found.len(), found.mode() & 0o777), (LONGER, 0o640));
    assert!(rt; fs::read(&rt, "old.device")?.starts_with(b"new"));
    Ok(())
}

/// The path names another file by now: that stays.
#[test]
fn a_successor_takes_no_other_files_place(rt: HostRuntime) -> Result<()> {
    let old = make(&rt, "moved.device")?;
    let successor = Successor::of(&rt, "moved.device", &old)?;
    drop(successor.make(&rt, SIZE, SIZE, Unknown)?);
    fs::rename(&rt, "moved.device", "away.device")?;
    assert!(rt; successor.take_place(&rt).is_err());
    fs::write(&rt, "moved.device", b"another")?;
    assert!(rt; successor.take_place(&rt).is_err());
    assert_eq!(rt; fs::metadata(&rt, "moved.device")?.len(), 7);
    successor.give_up(&rt);
    assert!(rt; !is_there(&rt, "moved.device.upgrade"));
    Ok(())
}
