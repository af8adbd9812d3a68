//! Devices for the worked table.

use alm_disk::MemDisk;
use alm_keeper::format;
use alm_types::Table;
use std::alloc::Global;

/// How many device calls are recorded.
const CALLS: usize = 1_000_000;

/// How many bytes a device with segments of 4,116 bytes has.
pub const SMALL: usize = 28_997;

/// Such a device in memory, formatted for the worked table. `None` if out of memory.
pub fn formatted(alloc: Global, table: &Table) -> Option<MemDisk> {
    formatted_with(alloc, table, SMALL)
}

/// A device in memory with this many bytes, formatted for the worked table. `None` if out of memory, or if they are too few.
pub fn formatted_with(alloc: Global, table: &Table, bytes: usize) -> Option<MemDisk> {
    let bytes = vec![in alloc; 0u8; bytes].ok()?;
    let disk = MemDisk::new(alloc, bytes, CALLS).ok()?;
    format(alloc, disk, table).ok()
}
