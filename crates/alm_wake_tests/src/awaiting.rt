//! The thread that awaits slots is woken as few are left, or by the last one.

use alm_common_tests::{same, slot_of};
use alm_wake::{Awaited, Gathering};
use std::test::Fail;

/// What each of these slots says as it comes, in this order, if slots 1, 4, 9 and 16 are awaited.
fn wakes(is_awake: bool, order: &[u8]) -> Result<[bool; 5], Fail> {
    let mut gathering = Gathering::new();
    for number in [1_u8, 4, 9, 16] {
        gathering.join(slot_of(number)?);
    }
    gathering.seal();
    let awaited = Awaited::new();
    awaited.begin(&gathering);
    if is_awake {
        awaited.attend();
    }
    let mut wakes = [false; 5];
    for place in 0..5 {
        if let Some(number) = order.get(place) {
            wakes[place] = awaited.come(slot_of(*number)?);
        }
    }
    Ok(wakes)
}

#[test]
fn a_sleeping_thread_is_woken_by_the_last_but_two_and_the_last() -> Result<(), Fail> {
    same(
        wakes(false, &[1, 4, 9, 16])?,
        [false, true, false, true, false],
    )?;
    same(
        wakes(false, &[16, 16, 0, 1, 4])?,
        [false, false, false, true, false],
    )?;
    Ok(())
}

#[test]
fn a_thread_that_is_awake_is_woken_by_the_last_alone() -> Result<(), Fail> {
    same(
        wakes(true, &[1, 4, 9, 16])?,
        [false, false, false, false, false],
    )?;
    Ok(())
}
