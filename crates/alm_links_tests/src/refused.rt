//! Out of memory: run with each allocation refused in turn (`rt try --test --fail-alloc N`, N from 1 to 10), these pass. One is
//! refused at most, so what was refused is made the second time: a maker that always gives up doesn't pass.

use crate::pair::Pair;
use crate::shelves::Shelves;
use std::test::Fail;

#[test]
fn chains_that_cannot_be_copied_stay_as_they_are(rt: HostRuntime) -> Result<(), Fail> {
    let mut chains = match Pair::new(rt.alloc(), 4, 2) {
        Ok(chains) => chains,
        Err(_) => Pair::new(rt.alloc(), 4, 2)?,
    };
    assert!(rt; chains.push_back(1, 1, 2));
    assert!(rt; chains.push_back(1, 1, 0));
    let copy = match chains.copy(rt.alloc()) {
        Ok(copy) => copy,
        Err(_) => chains.copy(rt.alloc())?,
    };
    assert!(rt; copy.is_list(1, 1, &[2, 0]));
    assert!(rt; chains.is_list(1, 1, &[2, 0]));
    assert!(rt; chains.is_list(0, 1, &[]));
    Ok(())
}

#[test]
fn a_wheel_that_cannot_be_copied_stays_as_it_is(rt: HostRuntime) -> Result<(), Fail> {
    let mut wheel = match Shelves::new(rt.alloc(), 4) {
        Ok(wheel) => wheel,
        Err(_) => Shelves::new(rt.alloc(), 4)?,
    };
    assert!(rt; wheel.put(3, 300));
    assert!(rt; wheel.put(1, 44));
    let copy = match wheel.copy(rt.alloc()) {
        Ok(copy) => copy,
        Err(_) => wheel.copy(rt.alloc())?,
    };
    assert!(rt; copy.is_slot(44, &[3, 1]));
    assert!(rt; wheel.is_slot(44, &[3, 1]));
    Ok(())
}
