//! Out of memory: run with each allocation refused in turn (`rt try --test --fail-alloc N`), these pass. One is refused at most,
//! so what was refused is made the second time: a maker that always gives up doesn't pass.

use crate::rows::is_answered;
use alm_common_tests::{same, slot_of};
use alm_desk::{LocalDesk, worked_table};
use alm_model::{Alarms, PlainPlant};
use alm_types::Slot;
use std::alloc::{AllocError, Global};
use std::test::Fail;

/// A desk over a new worked plant.
fn desk(alloc: Global) -> Result<LocalDesk<PlainPlant>, AllocError> {
    let table = worked_table(alloc)?;
    LocalDesk::new(alloc, PlainPlant::new(alloc, &table)?)
}

/// Whether a new session answers an action and a query. An error if out of memory.
fn answers(alloc: Global, slot: Slot) -> Result<bool, AllocError> {
    let replies = "7 NO 2\n9 STATE 0 NORM 0 - -\n";
    is_answered(alloc, slot, "7 ACK 0\n9 STATE 1\n", replies, 5, 7)
}

#[test]
fn a_session_is_made_whole_or_not_at_all(rt: HostRuntime) -> Result<(), Fail> {
    let alloc = rt.alloc();
    let slot = slot_of(0)?;
    let answered = match answers(alloc, slot) {
        Ok(answered) => answered,
        Err(_) => answers(alloc, slot)?,
    };
    assert!(rt; answered);
    Ok(())
}

#[test]
fn a_desk_is_made_whole_or_not_at_all(rt: HostRuntime) -> Result<(), Fail> {
    let alloc = rt.alloc();
    let desk = match desk(alloc) {
        Ok(desk) => desk,
        Err(_) => desk(alloc)?,
    };
    same(desk.backend().count(), 0)?;
    Ok(())
}
