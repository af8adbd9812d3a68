//! Out of memory: run with each allocation refused in turn (`rt try --test --fail-alloc N`), the test of this module passes. One
//! is refused at most, so what was refused is made the second time: a maker that always gives up doesn't pass.

use alm_common_tests::same;
use alm_disk::MemDisk;
use std::alloc::{AllocError, Global};
use std::test::Fail;

/// More bytes than two of the largest images take.
pub const LARGE: usize = 8 * 1024 * 1024;

/// A device of [`LARGE`] bytes, with room for a record of a million calls.
pub fn large(alloc: Global) -> Result<MemDisk, AllocError> {
    MemDisk::new(alloc, vec![in alloc; 7; LARGE]?, 1_000_000)
}

#[test]
fn a_large_device_is_made_whole_or_not_at_all(rt: HostRuntime) -> Result<(), Fail> {
    let disk = match large(rt.alloc()) {
        Ok(disk) => disk,
        Err(_) => large(rt.alloc())?,
    };
    same(disk.bytes().len(), LARGE)?;
    same(disk.bytes().last(), Some(&7))?;
    same(disk.failures(), 0)?;
    Ok(())
}
