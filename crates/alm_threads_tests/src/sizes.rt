//! Batches of each size are shown at once: no contract says when memory is refused, so none says that a publish isn't.

use crate::refused::{Course, course};
use alm_common_tests::same_at;
use alm_flush::Publishes;
use std::test::Fail;

/// How many bytes a device has whose segments hold the largest batch.
const LARGE: usize = 200_000;

/// Such a batch is published immediately, and a look shows each of its actions.
fn at_once(size: u16) -> Course {
    let count = size as u64;
    [
        (Publishes::Published, Some(Ok(count))),
        (Publishes::NotYet, Some(Ok(count))),
    ]
}

#[test]
fn a_batch_of_each_size_is_shown_at_once(rt: HostRuntime) -> Result<(), Fail> {
    for size in 1..=256 {
        same_at(
            size,
            course(&rt, rt.alloc(), LARGE, size),
            Some(at_once(size)),
        )?;
    }
    Ok(())
}
