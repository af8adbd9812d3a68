//! Bells that one thread left are rung by the next one that checks.

use crate::counter::Counter;
use alm_common_tests::same;
use alm_types::Slot;
use alm_wake::Bells;
use std::alloc::Global;
use std::sync::Arc;
use std::sync::atomic::{AtomicU64, Ordering};
use std::test::Fail;

/// How often the bells of slots 5 and 17 were rung in all as these slots had been left, and how often each after two threads had
/// checked.
fn rings(alloc: Global, left: &[u8]) -> Option<[u64; 3]> {
    let first = Arc::new(alloc, AtomicU64::new(0)).ok()?;
    let second = Arc::new(alloc, AtomicU64::new(0)).ok()?;
    let mut each = Vec::with_capacity(alloc, 2).ok()?;
    for rings in [&first, &second] {
        let rings = Arc::try_clone(rings).ok()?;
        each.push(Counter { rings }).ok()?;
    }
    let bells = Bells::new(&[Slot::new(5)?, Slot::new(17)?], each);
    for number in left {
        bells.leave(Slot::new(*number)?);
    }
    let early = first
        .load(Ordering::SeqCst)
        .wrapping_add(second.load(Ordering::SeqCst));
    bells.ring_left();
    bells.ring_left();
    Some([
        early,
        first.load(Ordering::SeqCst),
        second.load(Ordering::SeqCst),
    ])
}

#[test]
fn a_bell_that_was_left_is_rung_once(rt: HostRuntime) -> Result<(), Fail> {
    let alloc = rt.alloc();
    same(rings(alloc, &[]), Some([0, 0, 0]))?;
    same(rings(alloc, &[5]), Some([0, 1, 0]))?;
    same(rings(alloc, &[17]), Some([0, 0, 1]))?;
    same(rings(alloc, &[17, 5, 17]), Some([0, 1, 1]))?;
    same(rings(alloc, &[0, 4, 16]), Some([0, 0, 0]))?;
    Ok(())
}
