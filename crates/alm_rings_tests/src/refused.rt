//! Out of memory: run with each allocation refused in turn (`rt try --test --fail-alloc N`), these pass. One is refused at most,
//! so what was refused is made the second time: a maker that always gives up doesn't pass.

use crate::one::{One, ack};
use alm_rings::{open_batches, open_slot};
use alm_types::Slot;
use std::test::Fail;

#[test]
fn a_slot_is_opened_whole_or_not_at_all(rt: HostRuntime) -> Result<(), Fail> {
    let slot = Slot::new(5).ok_or("slot")?;
    let (mut console, mut inbox, _outbox) = match open_slot::<One>(rt.alloc(), slot) {
        Ok(ends) => ends,
        Err(_) => open_slot::<One>(rt.alloc(), slot).map_err(|_| "refused twice")?,
    };
    assert_eq!(rt; console.send(ack(1)), Ok(1));
    assert_eq!(rt; inbox.take(), Some((1, ack(1))));
    Ok(())
}

#[test]
fn batches_are_opened_whole_or_not_at_all(rt: HostRuntime) -> Result<(), Fail> {
    let (mut seal, _fetch) = match open_batches(rt.alloc()) {
        Ok(ends) => ends,
        Err(_) => open_batches(rt.alloc()).map_err(|_| "refused twice")?,
    };
    for _ in 0..8 {
        let first = seal.empty().map(|batch| batch.first());
        assert_eq!(rt; first, Some(1));
    }
    assert!(rt; seal.empty().is_none());
    Ok(())
}
